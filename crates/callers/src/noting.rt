//! What is noted of the calls that were answered: what each made and freed, and the answers for others to share.
ghost use Rattle.std.specs.Prelude.{◌≡◌, ◌≤◌, length, map, slice_get, IfOk};
ghost use Rattle.callers.specs.declared.answers.Answered.{Answered as Code};
ghost use Rattle.callers.specs.CallerParts.{answer_of, answers_with, AreSound, after_reply};

use crate::answers::{AnswerList, Answered, Outcome};
use history_book::Book;
use std::alloc::{AllocError, Global};
use vm_model::{Call, Reply};

/// Notes what the call at hand freed, where it is a `free_percpu` that is answered Done: its target's call.
pub fn note_free(outcomes: &mut [Outcome], calls: &[Call], reply: Reply)
    requires sound { AreSound calls.now }
    ensures freed { outcomes.new
        ≡ after_reply (slice_get calls.now (length outcomes.old)) reply outcomes.old }
{
    let Some(call) = calls.get(outcomes.len()) else {
        return;
    };
    let (Call::FreePercpu { target }, Reply::Done) = (*call, reply) else {
        return;
    };
    outcomes[target.call as usize - 1].freed = true;
}

/// The answered calls, with what was noted of each and what each made.
pub fn answers_noted(
    alloc: Global,
    calls: &[Call],
    book: &Book,
    outcomes: &[Outcome],
) -> Result<AnswerList, AllocError>
    requires few { length calls.now ≤ 100000 }
    requires calls { length book.now.rows ≤ length calls.now }
    requires made { length outcomes.now ≡ length book.now.rows }
    ensures answers { IfOk result (λ answers. map answer_of answers
        ≡ answers_with calls.now book.now.rows outcomes.now) }
    ensures outcomes { IfOk result (λ answers. map (λ (a : Code). a.outcome) answers
        ≡ outcomes.now) }
{
    let mut answers = Vec::with_capacity(alloc, outcomes.len())?;
    for (index, outcome) in outcomes.iter().enumerate() {
        let number = index as u32 + 1;
        answers.push_reserved(Answered {
            call: calls[index],
            reply: book.reply_at(number),
            outcome: *outcome,
            own_event: book.own_event_at(number),
        });
    }
    Ok(AnswerList::of(answers))
}
