//! A caller does its count lines.
ghost use Rattle.std.specs.Prelude.{◌≡◌, ◌<◌, ◌+◌, length};
ghost use Rattle.count_lines.specs.Shares.{caller_of, lines_in, done_in, IsShareOf, HasSameLines, HasCountedTo, IsFinished};

use crate::share::Share;
use percpu_counters::Counters;

impl Share {
    /// The caller whose lines they are. It takes no memory.
    pub fn caller(&self) -> u16
        ensures { result ≡ caller_of self.now }
    {
        self.caller
    }

    /// Adds the next line.
    fn count_next(&mut self, counters: &Counters)
        requires share { IsShareOf counters.now self.old }
        requires more { done_in self.old < length (lines_in self.old) }
        ensures share { IsShareOf counters.now self.new }
        ensures lines { HasSameLines self.old self.new }
        ensures done { done_in self.new ≡ done_in self.old + 1 }
    {
        let line = self.lines[self.done];
        counters.add(&mut self.pass, line.counter, line.cpu, line.amount);
        self.done += 1;
    }

    /// Adds the lines that stand before the next call of a caller that has so many answers. It waits for nobody, and takes
    /// no memory.
    pub fn count_up_to(&mut self, counters: &Counters, calls: u32)
        requires share { IsShareOf counters.now self.old }
        ensures share { IsShareOf counters.now self.new }
        ensures counted { HasCountedTo calls self.old self.new }
    {
        for next in self.done..self.lines.len() {
            if calls < self.lines[next].after {
                return;
            }
            self.count_next(counters);
        }
    }

    /// Adds the lines that are left. It waits for nobody, and takes no memory.
    pub fn finish(&mut self, counters: &Counters)
        requires share { IsShareOf counters.now self.old }
        ensures share { IsShareOf counters.now self.new }
        ensures lines { HasSameLines self.old self.new }
        ensures finished { IsFinished self.new }
    {
        for _next in self.done..self.lines.len() {
            self.count_next(counters);
        }
    }
}
