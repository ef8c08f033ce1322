//! Laws of transcripts: what the grammar that workers follow means, in plain words.
ghost use Rattle.std.specs.Prelude.{◌≡◌, ◌≢◌, ◌+◌, ◌↔◌, IsTrue, ℕ, List, All, Some, slice_get};
ghost use Rattle.hek_rules.specs.declared.event.Event.{Event};
ghost use Rattle.hek_rules.specs.declared.reply.Reply.{Reply};
ghost use Rattle.hek_rules.specs.declared.reply.Refusal.{Refusal};
ghost use Rattle.hek_worker.specs.Grammar.{AreTranscripts, IsTranscript, work_of};
ghost use Rattle.hek_worker.specs.Forms.{BeginsAndEnds, HasForm, IsFull, IsLawful, KeepsOrder, KeepsTurns, has_commit};

/// No reply in a transcript is a refusal.
pub fn none_refused()
    ensures { (t : ℕ) (work : List Event) (turns : ℕ) (xs : List (Event × Reply)) → IsTranscript t work turns xs → (why : Refusal) → All (λ x. x.1 ≢ Reply.Refused why) xs }
{}

/// `begin` is the first event of a transcript, and `end`, answered Over, the last; neither occurs in between.
pub fn begin_first_end_last()
    ensures { (t : ℕ) (steps : List Event) (turns : ℕ) (xs : List (Event × Reply)) → IsTranscript t (work_of t steps) turns xs → BeginsAndEnds t xs }
{}

/// The reads and writes in a transcript are the first ones of the transaction in the schedule, in their order; all of
/// them, if it committed.
pub fn reads_and_writes_in_order()
    ensures { (t : ℕ) (steps : List Event) (turns : ℕ) (xs : List (Event × Reply)) → IsTranscript t (work_of t steps) turns xs → KeepsOrder t (work_of t steps) xs }
{}

/// At most one more reply than there are turns is Waiting or WaitingCommits. There is one more exactly if the
/// transcript has a `fail`.
pub fn waits_use_turns()
    ensures { (t : ℕ) (steps : List Event) (turns : ℕ) (xs : List (Event × Reply)) → IsTranscript t (work_of t steps) turns xs → KeepsTurns turns xs }
{}

/// The transcripts are exactly the lists of three forms: full, cut short by an abort, or given up without a turn left.
pub fn transcripts_have_three_forms()
    ensures { (t : ℕ) (steps : List Event) (turns : ℕ) (xs : List (Event × Reply)) → IsTranscript t (work_of t steps) turns xs ↔ HasForm t (work_of t steps) turns xs }
{}

/// A transcript is full exactly if it has a reply Committed.
pub fn committed_where_full()
    ensures { (t : ℕ) (steps : List Event) (turns : ℕ) (xs : List (Event × Reply)) → IsTranscript t (work_of t steps) turns xs → IsTrue (has_commit xs) ↔ IsFull t (work_of t steps) turns xs }
{}

/// Each transcript that `run_workers` gives follows every law of transcripts, by the clause `grammar` of its contract.
pub fn transcripts_are_lawful()
    ensures { (steps : List Event) (turns : ℕ) (parts : List (List (Event × Reply))) → AreTranscripts steps turns parts → (i : ℕ) (p : List (Event × Reply)) → slice_get parts i ≡ Some p → IsLawful (i + 1) (work_of (i + 1) steps) turns p }
{}
