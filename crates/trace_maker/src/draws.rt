//! Numbers that are drawn one after another.
ghost use Rattle.std.specs.Prelude.{◌≡◌, ◌<◌, ◌%◌};
ghost use Rattle.trace_maker.specs.Generated.{next, drawn};

/// The state from which the next number is drawn.
#[derive(Drop)]
pub struct Draws {
    pub state: u32,
}

impl Draws {
    /// Draws a number. The low bits of a state repeat after a few draws, so they are left out.
    pub fn draw(&mut self) -> u32
        ensures state { self.new.state ≡ next self.old.state }
        ensures drawn { result ≡ drawn self.new.state }
        ensures small { result < 32768 }
    {
        let state = (1_103_515_245 * u64::from(self.state) + 12_345) % 2_147_483_648;
        self.state = state as u32;
        self.state / 65_536
    }

    /// Draws a number below a limit.
    pub fn draw_below(&mut self, limit: u32) -> u32
        requires { 0 < limit }
        ensures state { self.new.state ≡ next self.old.state }
        ensures drawn { result ≡ drawn self.new.state % limit }
        ensures below { result < limit }
    {
        self.draw() % limit
    }
}
