//! The laws of a run over any pairs: what holds of any history in which each mark is the one that
//! comes next. Each law is a function without parameters, whose clauses state it; a caller has the
//! law by calling it.
#![tactic(auto)]

ghost use Rattle.std.specs.Prelude.{◌≡◌, ℕ, true, false, List, Option, None, Some};
ghost use Rattle.gate_outside.specs.declared.log.LogEntry.{LogEntry};
ghost use Rattle.gate_relay.specs.Relayed.{IsRelayed};
ghost use Rattle.gate_relay.specs.RelayWords.{RelayWords};
ghost use Rattle.gate_runs.specs.declared.limits.Limits.{Limits};
ghost use Rattle.gate_runs.specs.declared.served.Served.{Served};
ghost use Rattle.gate_runs.specs.Journal.{journal};
ghost use Rattle.gate_runs.specs.Marks.{History, calls};
ghost use Rattle.gate_runs.specs.Next.{Done, next};
ghost use Rattle.gate_runs.specs.Report.{report};
ghost use Rattle.gate_runs.specs.Serving.{Follows, IsServed};
ghost use Rattle.gate_turn_laws.specs.Asks.{AsksLive};
ghost use Rattle.gate_turn_laws.specs.Begun.{IsOfPair};
ghost use Rattle.gate_turn_laws.specs.Ends.{EndsOnce, TurnsDid};
ghost use Rattle.gate_turn_laws.specs.Laws.{KeepsTurns};
ghost use Rattle.gate_turn_laws.specs.Lines.{TellsInOrder, told_lines};
ghost use Rattle.gate_turn_laws.specs.Log.{FollowsLog, IsPlain, IsWholeRun, Rests, is_plain_end};
ghost use Rattle.gate_turn_laws.specs.Log.{run_of, next_call};
ghost use Rattle.gate_turn_laws.specs.Memory.{CountsRunOuts};
ghost use Rattle.gate_turn_laws.specs.Moments.{NeverFalls};
ghost use Rattle.gate_turn_laws.specs.Pairs.{AreOrdered, LivesOrShut};
ghost use Rattle.gate_turn_laws.specs.Quiet.{IdlesAtRest, IdlesInSilence, IsSteady, WakesNone};
ghost use Rattle.gate_turn_laws.specs.Turns.{ComesOnce, KeepsOrder, WritesFew};
ghost use Rattle.gate_turn_laws.specs.Visits.{VisitsAll};
ghost use Rattle.gate_turn_laws.specs.Within.{IsWithin};

/// Each entry of a pair's journal is one that the entries before it ask for: by the words, by what
/// its ends allow, by the clock. After the end of the service ends are shut and nothing else is
/// done. A journal begins with the accept of its pair.
#[tactic(auto, using(crate::proofs::Relayed::relayed, crate::proofs::Pairs::of_pair))]
pub fn entries_are_asked()
    ensures asked { (w : RelayWords) (c : Limits) (m : History) → Follows w c m → (p : ℕ)
        → IsRelayed w (journal p m) }
    ensures begun { (w : RelayWords) (c : Limits) (m : History) → Follows w c m → (p : ℕ)
        → IsOfPair p (journal p m) }
{}

/// Pairs that live alone are read, taken up, connected, written to and shut, and each end only
/// while it is open for that.
#[tactic(auto, using(crate::proofs::Asks::asks_live))]
pub fn live_pairs_are_asked()
    ensures { (w : RelayWords) (c : Limits) (m : History) → Follows w c m → AsksLive m }
{}

/// Each pair that was accepted lives, with an open end, or its client's end was shut and no end is
/// open upstream. The live ones stand in the order of their accepts.
#[tactic(auto, using(crate::proofs::Pairs::lives_or_shut, crate::proofs::Order::ordered))]
pub fn pairs_live_or_are_shut()
    ensures each { (w : RelayWords) (c : Limits) (m : History) → Follows w c m → (p : ℕ)
        → LivesOrShut p m }
    ensures ordered { (w : RelayWords) (c : Limits) (m : History) → Follows w c m
        → AreOrdered m }
{}

/// A turn begins with the clock. Where a further pair may come accept is called right after it,
/// once. Then each live pair has its part, in rising number. No mark of a pair comes at a stage
/// before one that it reached, and the live pairs below it are through: nothing more is asked of
/// them. At idle and at the end of a turn all are through. In a turn each end of a pair is read,
/// what came is taken up and the connection is asked for at most once. Each end is written to at
/// most 4,096 times, but upstream up to 8,192 times in the turn in which the pair ran out of
/// memory.
#[tactic(auto, using(crate::proofs::Turns::keeps_order, crate::proofs::Once::comes_once, crate::proofs::Writes::writes_few))]
pub fn turns_keep_order()
    ensures places { (w : RelayWords) (c : Limits) (m : History) → Follows w c m
        → KeepsOrder w c m }
    ensures once { (w : RelayWords) (c : Limits) (m : History) → Follows w c m → ComesOnce m }
    ensures writes { (w : RelayWords) (c : Limits) (m : History) → Follows w c m → WritesFew m }
{}

/// In each turn each live pair has its whole part. Both its ends are read, what came is taken up,
/// the connection is asked for, both ends are written to and shut, where that is due at its place
/// in the turn. An end is written to until nothing is offered, nothing is taken, it failed, or
/// 4,096 writes took something.
#[tactic(auto, using(crate::proofs::Visits::visits_all))]
pub fn turns_visit_all()
    ensures { (w : RelayWords) (c : Limits) (m : History) → Follows w c m → VisitsAll w m }
{}

/// The service ends at most once, each time as its cause says. After its end ends are shut and
/// nothing else is done.
#[tactic(auto, using(crate::proofs::Ends::ends_once))]
pub fn service_ends_once()
    ensures { (w : RelayWords) (c : Limits) (m : History) → Follows w c m → EndsOnce w c m }
{}

/// Before each turn but the first, and before an end between two turns, something moved or idle was
/// called.
#[tactic(auto, using(crate::proofs::Ends::turns_did))]
pub fn turns_did_something()
    ensures { (w : RelayWords) (c : Limits) (m : History) → Follows w c m → TurnsDid m }
{}

/// At most 256 pairs live, no more pairs are accepted than may be, and no more turns begin than
/// were asked for.
#[tactic(auto, using(crate::proofs::Within::within))]
pub fn runs_are_limited()
    ensures { (w : RelayWords) (c : Limits) (m : History) → Follows w c m → IsWithin c m }
{}

/// A pair runs out of memory at most once. The count is that of the pairs that did, and is at most
/// that of the pairs accepted.
#[tactic(auto, using(crate::proofs::Memory::counts_run_outs))]
pub fn pairs_run_out_once()
    ensures { (w : RelayWords) (c : Limits) (m : History) → Follows w c m → CountsRunOuts m }
{}

/// Where a read that gave nothing and a write that took nothing change no word, all is at rest at
/// each idle. In this turn each end of a live pair that is to be read was read dry, unless it came
/// to be awaited behind its read. What is offered was stuck. Nothing can be taken up, unless that
/// came with the connect. No connection and no shut is due, no further client can come, and nothing
/// moved. Where the words don't wake either, an end that was opened in this turn is an exception,
/// and so is the client's where something of it was taken up; in a turn in which the connect
/// failed, so is what of it waited.
#[tactic(auto, using(crate::proofs::Quiet::idles_at_rest, crate::proofs::Silence::idles_in_silence))]
pub fn idle_is_at_rest()
    ensures rests { (w : RelayWords) (c : Limits) (m : History) → IsSteady w → Follows w c m
        → IdlesAtRest w c m }
    ensures silent { (w : RelayWords) (c : Limits) (m : History) → IsSteady w → WakesNone w
        → Follows w c m → IdlesInSilence w m }
{}

/// Where no pair ran out of memory and no sink failed, the calls alone determine the run. Each is
/// the next one after the calls before it, and none comes after the last. Two such histories of the
/// same calls, after which a call or nothing more comes, are equal. So the calls of a run of the
/// service in which no pair ran out of memory are a whole run, unless it answers that a sink failed
/// or memory.
#[tactic(auto, using(crate::proofs::Log::follows_log, crate::proofs::Log::done_by_calls, crate::proofs::Log::marks_by_calls, crate::proofs::Log::same_by_calls, crate::proofs::Log::served_by_calls))]
pub fn calls_determine_all()
    ensures each { (w : RelayWords) (c : Limits) (m : History) → Follows w c m → IsPlain m
        → FollowsLog w c (calls m) }
    ensures last { (w : RelayWords) (c : Limits) (m : History) → Follows w c m → IsPlain m
        → next w c m ≡ Done → next_call w c (calls m) ≡ None }
    ensures marks { (w : RelayWords) (c : Limits) (m : History) → Follows w c m → IsPlain m
        → Rests w c m → m ≡ run_of w c (calls m) }
    ensures same { (w : RelayWords) (c : Limits) (m n : History) → Follows w c m → Follows w c n
        → IsPlain m → IsPlain n → Rests w c m → Rests w c n → calls m ≡ calls n → m ≡ n }
    ensures served { (w : RelayWords) (c : Limits) (answer : Served)
        (held held' kept kept' : Option (List ℕ)) (m : History)
        → IsServed w c answer 0 held held' kept kept' m → is_plain_end (Some answer) ≡ true
        → IsWholeRun w c (calls m) }
{}

/// No moment is before the one that was given before it.
#[tactic(auto, using(crate::proofs::Moments::never_falls))]
pub fn moments_never_fall()
    ensures { (w : RelayWords) (c : Limits) (m : History) → Follows w c m → NeverFalls (calls m) }
{}

/// The report is the lines of all marks, in their order, without those of a read or a take-up
/// within which the pair ran out of memory. The lines for that stand in their place. A pair's line
/// closed stands at the shut after which it lives no more.
#[tactic(auto, using(crate::proofs::Lines::report_is, crate::proofs::Lines::tells_in_order))]
pub fn report_follows_marks()
    ensures whole { (w : RelayWords) (m : History) → report w m ≡ told_lines w false m }
    ensures order { (w : RelayWords) (c : Limits) (m : History) → Follows w c m
        → TellsInOrder w m }
{}

/// All the laws together.
pub fn runs_keep_turns()
    ensures { (w : RelayWords) (c : Limits) (m : History) → Follows w c m → KeepsTurns w c m }
{}
