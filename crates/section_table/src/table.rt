//! The table of words and slots that the passes share, and the steps that its rule knows.
ghost use Rattle.std.specs.Prelude.{ℕ};

use crate::parts::Parts;
use crate::views::View;
use atomic_table::{Join, Play, Seat, Shared, Split, TableRule};
use std::marker::{Brand, PhantomData};
use std::snapshot::Snapshot;

/// The regions and locals at the start, which no step changes. It holds them in the proofs alone.
#[derive(Drop)]
pub struct Key<R, L> {
    pub regions: Snapshot<Vec<R>>,
    pub locals: Snapshot<Vec<L>>,
}

/// The rule.
pub struct Turns<P> {
    parts: PhantomData<P>,
}

impl<P: Parts> TableRule<P::Region, View<P::Region, P::Local>, Key<P::Region, P::Local>>
    for Turns<P> {
    ghost use Rattle.section_table.specs.TableRule.{IsRuled};
    ghost use Rattle.section_table.specs.PassViews.{starting};

    ghost holds = { λ key. IsRuled P.meaning key.regions.value.items key.locals.value.items };

    ghost first = { λ key. starting key.locals.value.items };
}

/// What all passes share: the words, the slots of the regions, and the rule.
pub type Top<P> = Shared<
    <P as Parts>::Region,
    View<<P as Parts>::Region, <P as Parts>::Local>,
    Key<<P as Parts>::Region, <P as Parts>::Local>,
    Turns<P>,
>;

/// A pass's seat at the table: what the pass knows of it, in the proofs alone.
pub type Place<P> = Seat<<P as Parts>::Region, View<<P as Parts>::Region, <P as Parts>::Local>>;

/// Which caller makes a step. Each call picks it.
pub trait Actor {
    ghost caller: { ℕ };
}

impl Actor for Brand {
    ghost caller = { 0 };
}

/// A turn is taken, and its region leaves the slot.
pub struct Take<P> {
    parts: PhantomData<P>,
}

impl<P: Parts> Play<P::Region, View<P::Region, P::Local>> for Take<P> {
    ghost use Rattle.std.specs.Prelude.{◌≡◌, ℕ, ◌+◌};
    ghost use Rattle.section_table.specs.TableSteps.{Takes};

    ghost then = { λ step me found me'. (k : ℕ) → step.word ≡ k + 2
        → Takes P.meaning k me found me' };
}

/// A stamp is drawn.
pub struct Draw<P, C> {
    parts: PhantomData<(P, C)>,
}

impl<P: Parts, C: Actor> Play<P::Region, View<P::Region, P::Local>> for Draw<P, C> {
    ghost use Rattle.section_table.specs.TableSteps.{Draws};

    ghost then = { λ step me found me'. Draws P.meaning C.caller me found me' };
}

/// A region comes home, and its turn is given back.
pub struct Release;

impl<R, L> Play<R, View<R, L>> for Release {
    ghost use Rattle.std.specs.Prelude.{◌≡◌, [], None};
    ghost use Rattle.section_table.specs.PassViews.{holding};

    ghost then = { λ step me found me'. me' ≡ (holding None me.0, []) };
}

/// All passes are to halt.
pub struct Halt;

impl<R, L> Play<R, View<R, L>> for Halt {
    ghost use Rattle.std.specs.Prelude.{◌≡◌, true};
    ghost use Rattle.section_table.specs.PassViews.{flagged};

    ghost then = { λ step me found me'. me' ≡ (flagged true true me.0, me.1) };
}

/// Whether all passes are to halt is read.
pub struct Ask;

impl<R, L> Play<R, View<R, L>> for Ask {
    ghost use Rattle.section_table.specs.TableSteps.{Reads};

    ghost then = { λ step me found me'. Reads me found me' };
}

/// A caller goes to a pass of its own.
pub struct Cut<C> {
    actor: PhantomData<C>,
}

impl<R, L, C: Actor> Split<View<R, L>> for Cut<C> {
    ghost use Rattle.section_table.specs.PassViews.{without, alone};

    ghost left = { without C.caller };

    ghost right = { alone C.caller };
}

/// Two passes become one.
pub struct Merge;

impl<R, L> Join<View<R, L>> for Merge {
    ghost use Rattle.section_table.specs.PassViews.{both_of, spent};

    ghost both = { both_of };

    ghost spent = { spent };
}
