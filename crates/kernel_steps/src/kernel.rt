//! The kernel: all regions and all callers, one step after another.
ghost use Rattle.std.specs.Prelude.{◌∷◌, ◌≡◌, ◌≢◌, ◌≤◌, ◌<◌, ℕ, true, false, List, All, Some, length, take, slice_get, IfOk, IfSome, OnOk, OnErr};
ghost use Rattle.vm_model.specs.declared.calls.Call.{Call};
ghost use Rattle.vm_model.specs.Setup.{Setup};
ghost use Rattle.unit_layout.specs.Config.{setup_of};
ghost use Rattle.std.specs.Arc.{arc_value};
ghost use Rattle.vm_model.specs.History as history;
ghost use Rattle.vm_model.specs.History.{World, opening_world, step, pick_all, moves_in, first_mover, finish, most_events};
ghost use Rattle.vm_model.specs.LegalHistory.{AllOver};
ghost use Rattle.vm_model.specs.Parts.{wants, moves, after};
ghost use Rattle.vm_model.specs.Run.{section_by};
ghost use Rattle.section_core.specs.declared.region.Stepped.TheVariants.{Moved};
ghost use Rattle.section_laws.specs.Lawful.{IsLawful};
ghost use Rattle.kernel_steps.specs.Kernels.{KernelState, IsStanding, IsSteppedAs, SectionAs, CanStart, IsBefore, CanJoin, HaveEnded, start_of, opening_of, callers_of};

use callers::{AnswerList, Local, first_callers, placing_calls};
use section_core::{Region, Stepped, first_regions, moves, section};
use std::alloc::{AllocError, Global};
use std::marker::Model;
use std::sync::Arc;
use unit_layout::Config;
use vm_model::{CallerCalls, CallsList};

/// More events than any trace makes.
const MOST_EVENTS: u32 = 100_000_000;

/// An allocator and its callers: the opening is caller 0.
#[derive(Drop)]
pub struct Kernel {
    pub(crate) alloc: Global,
    pub(crate) regions: Vec<Region>,
    pub(crate) locals: Vec<Local>,
    pub(crate) moved: Vec<u16>,
}

impl Model for Kernel {
    ghost use Rattle.kernel_steps.specs.Kernels.{KernelState, IsSomewhere};

    ghost Value = { KernelState };

    ghost view = { λ k. record {
      regions = k.regions.items;
      locals = k.locals.items;
      moved = k.moved.items;
    } };

    ghost invariant = { λ k. IsSomewhere (record {
      regions = k.regions.items;
      locals = k.locals.items;
      moved = k.moved.items;
    }) };
}

/// The next section of a caller, over the region of all that it wants.
#[inline(always)]
fn section_of(
    regions: &mut [Region],
    locals: &mut [Local],
    caller: usize,
) -> Result<Stepped, AllocError>
    requires caller { caller < length locals.old }
    requires lawful { IsLawful regions.old locals.old }
    ensures ok { OnOk result ((regions.new, locals.new) ≡ section_by wants moves after
        (regions.old, locals.old) caller (slice_get locals.old caller)) }
    ensures ended { IfOk result (SectionAs (regions.old, locals.old) caller) }
    ensures err { OnErr result ((regions.new ≡ regions.old) × (locals.new ≡ locals.old)) }
{
    let local = &mut locals[caller];
    let Some(number) = local.wants() else {
        return Ok(Stepped::Ended);
    };
    section(local, &mut regions[number as usize])
}

impl Kernel {
    /// Starts an allocator on the numbers of a header, and makes the calls of the opening, the first section, to their
    /// end. The callers of the further sections stand before their first calls then.
    pub fn start(alloc: Global, config: Config, sections: CallsList) -> Result<Kernel, AllocError>
        requires { CanStart (setup_of config) sections }
        ensures { IfOk result (λ kernel. IsStanding (setup_of config) (opening_of sections)
            (callers_of sections) (start_of (setup_of config) sections) kernel) }
    {
        let config = Arc::new(alloc, config)?;
        let room = placing_calls(&sections);
        let mut sections = sections.into_vec();
        let opening = sections.remove(0);
        let mut kernel = Kernel::before(alloc, &config, opening, room)?;
        kernel.finish()?;
        let answers = Arc::new(alloc, kernel.locals[0].answers(alloc)?)?;
        kernel.join(first_callers(alloc, &config, &answers, sections)?)?;
        Ok(kernel)
    }

    /// The opening before its first call, with room for so many objects.
    fn before(
        alloc: Global,
        config: &Arc<Config, Global>,
        opening: CallerCalls,
        room: u32,
    ) -> Result<Kernel, AllocError>
        requires { (calls : List (List Call))
            × IsBefore (setup_of (arc_value config.now)) (opening ∷ calls) room }
        ensures { IfOk result (λ kernel. (calls : List (List Call))
            → IsBefore (setup_of (arc_value config.now)) (opening ∷ calls) room
            → IsStanding (setup_of (arc_value config.now)) opening calls
            (opening_world (setup_of (arc_value config.now)) opening calls) kernel) }
    {
        let none = Arc::new(alloc, AnswerList::of(Vec::new(alloc)))?;
        let first = Local::start(alloc, Arc::try_clone(config)?, 0, none, opening)?;
        Ok(Kernel {
            alloc,
            regions: first_regions(alloc, config, room)?,
            locals: vec![in alloc; first]?,
            moved: Vec::new(alloc),
        })
    }

    /// Callers beside the opening, which has ended.
    fn join(&mut self, callers: Vec<Local>) -> Result<(), AllocError>
        requires { (c : Setup) × (sections : List (List Call))
            × CanJoin c sections self.old callers.items }
        ensures { OnOk result ((c : Setup) (sections : List (List Call))
            → CanJoin c sections self.old callers.items
            → IsStanding c (opening_of sections) (callers_of sections)
            (start_of c sections) self.new) }
    {
        let mut callers = callers;
        self.locals.append(&mut callers)?;
        Ok(())
    }

    /// Which of the two it is that keeps a caller from moving: a turn that another has, or that all its calls are answered.
    fn stands_still(&self, caller: u16) -> Stepped
        requires { caller < length self.now.locals }
        ensures still { result ≢ Moved }
        ensures stepped { (c : Setup) (opening : List Call) (calls : List (List Call)) (w : World)
            → IsStanding c opening calls w self.now → moves_in w (slice_get w.locals caller) ≡ false
            → IsSteppedAs w caller result }
    {
        match self.locals[caller as usize].wants() {
            Some(_) => Stepped::Stays,
            None => Stepped::Ended,
        }
    }

    /// The number of the region that a caller's next section wants, or none where all its calls are answered.
    pub fn wants(&self, caller: u16) -> Option<u16>
        requires { caller < length self.now.locals }
        ensures { (l : history.Local) × (slice_get self.now.locals caller ≡ Some l)
            × (result ≡ wants l) }
    {
        self.locals[caller as usize].wants()
    }

    /// How many calls of a caller are answered.
    pub fn answered(&self, caller: u16) -> u32
        requires { caller < length self.now.locals }
        ensures { (l : history.Local) × (slice_get self.now.locals caller ≡ Some l)
            × (result ≡ length l.answers) }
    {
        self.locals[caller as usize].answered()
    }

    /// One event of a caller, by its number. It stays where its next section takes a turn that another has, and it has
    /// ended where all its calls are answered; then nothing changes, and no memory is wanted. An error changes nothing
    /// either.
    pub fn step(&mut self, caller: u16) -> Result<Stepped, AllocError>
        requires { caller < length self.old.locals }
        ensures ok { OnOk result ((c : Setup) (opening : List Call) (calls : List (List Call))
            (w : World) → IsStanding c opening calls w self.old
            → IsStanding c opening calls (step w caller) self.new) }
        ensures stepped { IfOk result
            (λ stepped. (c : Setup) (opening : List Call) (calls : List (List Call)) (w : World)
            → IsStanding c opening calls w self.old → IsSteppedAs w caller stepped) }
        ensures unchanged { IfOk result (λ stepped. stepped ≢ Moved → self.new ≡ self.old) }
        ensures callers { length self.new.locals ≡ length self.old.locals }
        ensures memory { OnErr result ((c : Setup) (opening : List Call) (calls : List (List Call))
            (w : World) → IsStanding c opening calls w self.old
            → moves_in w (slice_get w.locals caller) ≡ true) }
        ensures err { OnErr result (self.new ≡ self.old) }
    {
        if self.can_move(caller) {
            self.advance(caller)
        } else {
            Ok(self.stands_still(caller))
        }
    }

    /// The same, without a look before whether the caller moves, as where it is known. There is room for the event first.
    #[inline(always)]
    fn advance(&mut self, caller: u16) -> Result<Stepped, AllocError>
        requires { caller < length self.old.locals }
        ensures ok { OnOk result ((c : Setup) (opening : List Call) (calls : List (List Call))
            (w : World) → IsStanding c opening calls w self.old
            → IsStanding c opening calls (step w caller) self.new) }
        ensures stepped { IfOk result
            (λ stepped. (c : Setup) (opening : List Call) (calls : List (List Call)) (w : World)
            → IsStanding c opening calls w self.old → IsSteppedAs w caller stepped) }
        ensures unchanged { IfOk result (λ stepped. stepped ≢ Moved → self.new ≡ self.old) }
        ensures callers { length self.new.locals ≡ length self.old.locals }
        ensures others { (other : ℕ) → other ≢ caller
            → slice_get self.new.locals other ≡ slice_get self.old.locals other }
        ensures err { OnErr result (self.new ≡ self.old) }
    {
        self.moved.reserve(1)?;
        let stepped = section_of(&mut self.regions, &mut self.locals, caller as usize)?;
        match stepped {
            Stepped::Moved => self.moved.push_reserved(caller),
            Stepped::Stays | Stepped::Ended => {}
        }
        Ok(stepped)
    }

    /// Whether a caller's next section would move now.
    #[inline(always)]
    fn can_move(&self, caller: u16) -> bool
        requires { caller < length self.now.locals }
        ensures { (c : Setup) (opening : List Call) (calls : List (List Call)) (w : World)
            → IsStanding c opening calls w self.now
            → result ≡ moves_in w (slice_get w.locals caller) }
    {
        let local = &self.locals[caller as usize];
        match local.wants() {
            Some(number) => moves(local, &self.regions[number as usize]),
            None => false,
        }
    }

    /// One step for each pick, in their order. After an error the kernel stands where the picks before it led.
    pub fn run(&mut self, picks: &[u16]) -> Result<(), AllocError>
        requires { All (λ (pick : ℕ). pick < length self.old.locals) picks.now }
        ensures ok { OnOk result ((c : Setup) (opening : List Call) (calls : List (List Call))
            (w : World) → IsStanding c opening calls w self.old
            → IsStanding c opening calls (pick_all w picks.now) self.new) }
        ensures callers { length self.new.locals ≡ length self.old.locals }
        ensures err { OnErr result ((n : ℕ) × (n < length picks.now)
            × ((c : Setup) (opening : List Call) (calls : List (List Call)) (w : World)
            → IsStanding c opening calls w self.old
            → IsStanding c opening calls (pick_all w (take n picks.now)) self.new)) }
    {
        for pick in picks {
            self.step(*pick)?;
        }
        Ok(())
    }

    /// The first caller from one on that has not ended, where those before it have, or how many callers there are.
    #[inline(always)]
    fn skip_ended(&self, from: u16) -> u16
        requires within { from ≤ length self.now.locals }
        requires ended { HaveEnded from self.now.locals }
        ensures within { result ≤ length self.now.locals }
        ensures ended { HaveEnded result self.now.locals }
    {
        let mut caller = from;
        while (caller as usize) < self.locals.len() {
            if self.locals[caller as usize].wants().is_some() {
                break;
            }
            caller += 1;
        }
        caller
    }

    /// The lowest caller that can move, where so many have ended.
    #[inline(always)]
    fn first_mover(&self, ended: u16) -> Option<u16>
        requires within { ended ≤ length self.now.locals }
        requires ended { HaveEnded ended self.now.locals }
        ensures first { (c : Setup) (opening : List Call) (calls : List (List Call)) (w : World)
            → IsStanding c opening calls w self.now → result ≡ first_mover w }
        ensures within { IfSome result (λ caller. caller < length self.now.locals) }
        ensures behind { IfSome result (λ caller. ended ≤ caller) }
    {
        for caller in ended..self.locals.len() as u16 {
            if self.can_move(caller) {
                return Some(caller);
            }
        }
        None
    }

    /// The lowest caller that can move, again and again, until all have ended. After an error the kernel stands where
    /// the steps before it led.
    pub fn finish(&mut self) -> Result<(), AllocError>
        ensures ok { OnOk result ((c : Setup) (opening : List Call) (calls : List (List Call))
            (w : World) → IsStanding c opening calls w self.old
            → IsStanding c opening calls (finish most_events w) self.new) }
        ensures over { OnOk result ((c : Setup) (opening : List Call) (calls : List (List Call))
            (w : World) → IsStanding c opening calls w self.old → AllOver self.new.locals) }
        ensures callers { length self.new.locals ≡ length self.old.locals }
        ensures err { OnErr result ((n : ℕ) × (n < most_events)
            × ((c : Setup) (opening : List Call) (calls : List (List Call)) (w : World)
            → IsStanding c opening calls w self.old
            → IsStanding c opening calls (finish n w) self.new)) }
    {
        let mut ended = 0;
        for _ in 0..MOST_EVENTS {
            ended = self.skip_ended(ended);
            let Some(caller) = self.first_mover(ended) else {
                break;
            };
            self.advance(caller)?;
        }
        Ok(())
    }

    /// The caller of each event, in the order of the events.
    pub fn moved(&self) -> &[u16]
        ensures { result.now ≡ self.now.moved }
    {
        self.moved.as_slice()
    }
}
