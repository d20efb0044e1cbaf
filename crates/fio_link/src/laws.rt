//! Laws of the link machine: each function states some in its contract and does nothing.
ghost use Rattle.std.specs.Prelude.{◌≡◌, ℕ, ◌≤◌, true, false, [], ◌∷◌};
ghost use Rattle.fio_input.specs.FiltersThatDiffer.{Plan};
ghost use Rattle.fio_module.specs.Limits.{Limits, are_limits};
ghost use Rattle.fio_module.specs.Settings.{Settings, standard_settings, settings_with, AreInRange, HasRoom};
ghost use Rattle.fio_link.specs.Link.{Machine};
ghost use Rattle.fio_link.specs.Pieces.{TakenArePieces, PiecesBeginLog};
ghost use Rattle.fio_link.specs.Headline.{Headline};
ghost use Rattle.fio_link.specs.Rounds.{PollsOf, PollsReceivedHaveRounds, NewestPollMadeNewestBlock, BlockAnswersOf, AnswersCarryBlocks};
ghost use Rattle.fio_link.specs.Rising.{IsRising};
ghost use Rattle.fio_link.specs.Restarts.{TakesStretchOfEachLife};
ghost use Rattle.fio_link.specs.CpuRestarts.{KeptNumberLosesNothing, NewCpuTakesStretches, RecordsPlaces};
ghost use Rattle.fio_link.specs.Sound.{HoldsOfRuns, HoldsWhateverRestarts, HoldsWithoutRestart, IsSoundRun, LeadToOneMachine};
ghost use Rattle.fio_link.specs.Delivery.{RoundWithNothingBetweenIsClean, CleanRoundTakesBlock, EachCleanRoundTakesOne, IsWholeUnlessFull, GapsNameTimes, IsWholeWherePolledOften, IsWholeWherePolledForEach, IsWholeAfterOutage};
ghost use Rattle.fio_link.specs.Settled.{StandsWithoutRestart, CleanRoundTakesAll, RoundsMakeBlocks, CleanRoundsCatchUp};
ghost use Rattle.fio_link.specs.KeptUp.{AreInTime, RoundIsInTime, RoundWithNothingBetweenIsAfter, BeginNear, AllArrivesWhereKeptUpWith, AllArrivesInTime, OutagesArePossible, RoundsCatchUp, StandardLimitsHaveRoom};
ghost use Rattle.fio_link.specs.ForEach.{AllArrivesForEach};
ghost use Rattle.fio_link.specs.WholeSince.{GainsAllWhere, StaysFew, IsRoomyOutage, IsOftenForEach};
ghost use Rattle.fio_link.specs.StandardLinks.{StandardLinkIsNeverLater, StandardLinkRecordsNewLevels};
ghost use Rattle.fio_link.specs.Rate.{ArrivesInTimeAtARate};
ghost use Rattle.fio_link.specs.MovedScans.{ScansMoveOut};
ghost use Rattle.fio_link.specs.Sharpness.{IsAsLateAtARate, LosesWhereARoundIsLonger, LosesWhereAScanLater, StandardLinkIsAsLate};
ghost use Rattle.fio_wire.specs.declared.line_kind.LineKind.TheVariants.{Synchronous};
ghost use Rattle.fio_link.specs.Instances.{IsKeptUpAfterRestarts};
ghost use Rattle.fio_link.specs.Answered.{AnswersKeepRecord, MakersMayAnswer, RunsWithoutAnswers};
ghost use Rattle.fio_link.specs.LostRounds.{LoseFewRounds, LostRoundsArePossible};

/// The pieces that the first m blocks of a life add to the record are the pieces of its transition log from the start
/// through the end of the m-th.
#[tactic(auto, using(crate::proofs::PieceLaws::taken_are_pieces))]
pub fn pieces()
    ensures { TakenArePieces }
{}

/// Up to the first gap mark, pieces of the log from its start are a prefix of it.
#[tactic(auto, using(crate::proofs::PieceLaws::pieces_begin_log))]
pub fn prefix_until_gap()
    ensures { PiecesBeginLog }
{}

/// After any events without restarts, the CPU's record is the module's transition log from its start through the last block
/// taken, each entry once and in order. Entries are missing only at gap marks.
#[tactic(auto, using(crate::proofs::Promises::headline))]
pub fn headline()
    ensures { HoldsOfRuns (λ settings first events machine.
        Headline settings first events machine.items) }
{}

/// Everything that is promised of runs holds of every run.
#[tactic(auto, using(crate::proofs::Promises::runs_are_sound))]
pub fn runs_are_sound()
    ensures { HoldsOfRuns IsSoundRun }
{}

/// Whatever restarts, the record rises through the transition logs of all lives: nothing is
/// doubled, reordered or invented.
#[tactic(auto, using(crate::proofs::Promises::record_rises))]
pub fn record_rises()
    ensures { HoldsOfRuns (λ settings first events machine. IsRising machine) }
{}

/// Whatever restarts, from each of the module's lives the CPU has taken one contiguous run of its blocks: all of them,
/// except perhaps the first and perhaps the last. The record is what these blocks add to it, life by life, each entry with
/// its time. So without a gap mark a restart loses at most `waiting` + `per_block` transitions, and those that were pushed
/// out between the last block taken before it and the first one after it.
#[tactic(auto, using(crate::proofs::Promises::runs_are_sound))]
pub fn one_stretch_of_each_life_is_taken()
    ensures { HoldsOfRuns (λ settings first events machine. TakesStretchOfEachLife settings machine) }
{}

/// A CPU that begins again with the number that it had loses and doubles nothing, whatever is under way: the records of its
/// lives, joined, are the record of one run.
#[tactic(auto, using(crate::proofs::KeptNumber::kept_number_loses_nothing))]
pub fn cpu_with_kept_number()
    ensures { KeptNumberLosesNothing }
{}

/// A CPU that begins anew with any number, and with no frame under way, takes one contiguous run of the module's blocks in
/// each of its lives, while the module does not restart. Each restart of the CPU gives up at most one block, and takes at
/// most one twice, which then says that its number was requested again.
#[tactic(auto, using(crate::proofs::CpuStretches::new_cpu_takes_stretches))]
pub fn cpu_with_any_number()
    ensures { NewCpuTakesStretches }
{}

/// With frames under way, a CPU that begins with its first number again can lose transitions without a gap mark: of five,
/// the third and the fourth.
#[tactic(auto, using(crate::proofs::FramesUnderWay::loses_two))]
pub fn cpu_with_frames_under_way_can_lose()
    ensures { RecordsPlaces (standard_settings 2) 0 (0 ∷ 1 ∷ 4 ∷ []) }
{}

/// The rounds of the polls sent never fall and are at most the CPU's. From the poll delivered last on, they are at least
/// that of the newest poll that the module has received.
#[tactic(auto, using(crate::proofs::Promises::polls_are_in_order))]
pub fn polls_are_in_order()
    ensures { HoldsOfRuns (λ settings first events machine. PollsOf first machine) }
{}

/// The polls received have the numbers of their rounds. Without restarts the round of the newest is that of the newest
/// block.
#[tactic(auto, using(crate::proofs::Promises::newest_poll_rounds, crate::proofs::Promises::newest_poll_made_newest_block))]
pub fn newest_poll_made_newest_block()
    ensures rounds { HoldsOfRuns (λ settings first events machine.
        PollsReceivedHaveRounds first machine) }
    ensures newest { HoldsWithoutRestart (λ settings first machine.
        NewestPollMadeNewestBlock settings machine) }
{}

/// The rounds of the block answers sent never fall and are those of polls received. From the answer delivered last on, they
/// are at least the one before the CPU's.
#[tactic(auto, using(crate::proofs::Promises::block_answers_are_in_order))]
pub fn block_answers_are_in_order()
    ensures { HoldsOfRuns (λ settings first events machine. BlockAnswersOf machine) }
{}

/// Without restarts each block answer carries the block of its round.
pub fn answers_carry_blocks()
    ensures { HoldsWithoutRestart AnswersCarryBlocks }
{}

/// Without restarts a machine is settled if the CPU has taken all the blocks that were made, and nothing waits.
pub fn settled_points()
    ensures { HoldsWithoutRestart StandsWithoutRestart }
{}

/// After any events, restarts included, a clean round takes a block. With nothing between its steps none of its events is
/// refused, the module answers, and the CPU takes the answer. In each clean round the CPU takes one block, whatever else
/// comes between.
pub fn clean_rounds_take_blocks()
    ensures possible { HoldsWhateverRestarts CleanRoundTakesBlock }
    ensures each { HoldsWhateverRestarts EachCleanRoundTakesOne }
{}

/// A clean round with nothing between its steps is a clean round, and comes after the pause before it.
pub fn rounds_with_nothing_between_are_clean()
    ensures clean { (settings : Settings) (first : ℕ) (machine : Machine)
        → RoundWithNothingBetweenIsClean settings first machine }
    ensures after { (settings : Settings) (first : ℕ) (machine : Machine)
        → RoundWithNothingBetweenIsAfter settings first machine }
{}

/// After any events, restarts included, the CPU has taken all blocks after one clean round. After 1 + k of them with nothing
/// between their steps, if at most k blocks of entries waited, the link is settled and the record goes through the end of
/// the transition log.
pub fn clean_rounds_catch_up()
    ensures taken { HoldsWhateverRestarts CleanRoundTakesAll }
    ensures caught_up { HoldsWhateverRestarts CleanRoundsCatchUp }
{}

/// Without restarts nothing is lost unless the buffer was full. If never more transitions lay beyond the newest block than
/// may wait, the record is the whole transition log through the last block taken. Each gap mark belongs to a block, before
/// which the record is what all blocks before it add, and when that block was made more transitions did.
pub fn nothing_is_lost()
    ensures whole { HoldsWithoutRestart (λ settings first machine.
        IsWholeUnlessFull settings machine) }
    ensures gaps { HoldsWithoutRestart (λ settings first machine.
        GapsNameTimes settings machine) }
{}

/// Without restarts, if the module is polled often enough from a time on at which nothing waits, and the buffer has room for
/// what comes between two blocks, the record is the whole transition log through the last block taken, also if each input
/// counts with the filters of its group. The same holds after an outage for which the buffer has room.
pub fn polled_often_is_whole()
    ensures polled_often { HoldsWithoutRestart (λ settings first machine.
        IsWholeWherePolledOften settings machine) }
    ensures for_each { HoldsWithoutRestart (λ settings first machine.
        IsWholeWherePolledForEach settings machine) }
    ensures outage { HoldsWithoutRestart (λ settings first machine.
        IsWholeAfterOutage settings machine) }
{}

/// Each clean round, with what comes before it since the one before, makes a block, whatever was lost or repeated. It is in
/// time if the module receives its poll in time.
pub fn clean_rounds_keep_up()
    ensures blocks { HoldsWhateverRestarts RoundsMakeBlocks }
    ensures in_time { (settings : Settings) (first : ℕ) (machine : Machine)
        → RoundIsInTime settings first machine }
{}

/// From a settled point on, after restarts too: let clean rounds each make up for s scans, with k s at most `per_block` * f,
/// and let the blocks never be more than m scans behind, with k (m + f - 1) at most w f, if w entries may wait. Then the
/// record gains each transition once, in order, with its time, and no gap mark; and at any time it lacks none that is more
/// than b + f - 2 scans old, if the blocks may be b scans behind.
pub fn all_arrives_where_kept_up_with()
    ensures { HoldsWhateverRestarts AllArrivesWhereKeptUpWith }
{}

/// The same holds with b and m of n + u if the module receives the poll of a clean round at least every n scans, u of them
/// after a time whose blocks the CPU had all taken; if no answer is lost, u is 0. At the end of a clean round the record then lacks
/// no transition that had been logged when the module received the poll two clean rounds earlier, or one round earlier if no
/// answer is lost.
pub fn all_arrives_in_time()
    ensures { HoldsWhateverRestarts AllArrivesInTime }
{}

/// From a settled point on, after restarts too, the record gains each transition once, in order, and no gap mark, up to the
/// last block taken: if never more transitions lie beyond the newest block than may wait; after an outage for which the
/// buffer has room; and if blocks are made often enough for each input with its own filters.
pub fn settled_links_lose_nothing()
    ensures unless_full { HoldsWhateverRestarts (GainsAllWhere StaysFew) }
    ensures outage { (opened filter : ℕ) → HoldsWhateverRestarts (GainsAllWhere (IsRoomyOutage opened filter)) }
    ensures for_each { (plan : Plan) (scans : ℕ) → HoldsWhateverRestarts (GainsAllWhere (IsOftenForEach plan scans)) }
{}

/// The same holds if the open inputs' filters differ, while these stay as planned. If the sum of 1 + (n - 1) / f over the
/// inputs that may be open is at most `per_block` and no more than may wait, none is later than n - 1 scans, and no more
/// wait than this sum; if answers are lost, the same holds with 2 n for n, and the sum for 2 n.
pub fn all_arrives_for_each()
    ensures { HoldsWhateverRestarts AllArrivesForEach }
{}

/// Links keep up within a pace of s scans, and after an outage of m scans in it. Rounds that come more often than every s
/// scans catch up by the difference. Under the standard limits, with up to 64 open inputs and filters of at least 5, s may
/// be 19 and m 76.
pub fn outages_within_a_pace()
    ensures possible { OutagesArePossible }
    ensures caught_up { RoundsCatchUp }
    ensures standard { StandardLimitsHaveRoom 19 76 }
{}

/// Rounds begin at most n scans apart, and each clean one makes up for s scans. If among each c + 1 successive rounds at
/// most l are lost, with c n at most (c - l) s, the blocks are never more than (l + 1) n scans behind.
#[tactic(auto, using(crate::proofs::LostRounds::lost_rounds_are_possible))]
pub fn lost_rounds()
    ensures { LostRoundsArePossible }
{}

/// Under the standard limits, with up to 64 open inputs and filters of at least 5, from a settled point on, after restarts
/// too, nothing is lost. A transition is in the record at most 22 scans after its own with a clean round at least every 19
/// scans; at most 41 if answers are lost; at most 79 if rounds each make up for 19 scans and the blocks are never more than
/// 76 behind; and at most 71 if rounds begin at most 12 scans apart and at most 5 of each 100 successive ones are lost.
pub fn standard_links_are_never_late()
    ensures no_answer_lost { StandardLinkIsNeverLater (AreInTime 19 0) 22 }
    ensures answers_lost { StandardLinkIsNeverLater (AreInTime 19 19) 41 }
    ensures kept_up { StandardLinkIsNeverLater (BeginNear 19 76) 79 }
    ensures rounds_lost { StandardLinkIsNeverLater (LoseFewRounds 12 100 5) 71 }
{}

/// If an input then has a new level for a run of samples as long as its filter f, the change is in the record at most f - 1
/// scans later than that, counted from the first of these samples.
pub fn standard_links_record_new_levels()
    ensures no_answer_lost { StandardLinkRecordsNewLevels (AreInTime 19 0) 22 }
    ensures answers_lost { StandardLinkRecordsNewLevels (AreInTime 19 19) 41 }
    ensures kept_up { StandardLinkRecordsNewLevels (BeginNear 19 76) 79 }
    ensures rounds_lost { StandardLinkRecordsNewLevels (LoseFewRounds 12 100 5) 71 }
{}

/// Two of these bounds are reached: there are such links that lack a transition which is 22 scans old, and 41 if answers are
/// lost.
#[tactic(auto, using(crate::proofs::Sharpness::late_22, crate::proofs::Sharpness::late_41))]
pub fn standard_links_are_as_late()
    ensures no_answer_lost { StandardLinkIsAsLate 19 0 22 }
    ensures answers_lost { StandardLinkIsAsLate 19 19 41 }
{}

/// With one scan more between two clean rounds than is often enough, a link can lose transitions: with 64 open inputs,
/// filters of 1, and blocks of 64, a clean round every scan is often enough, and one every 2 scans is not.
#[tactic(auto, using(crate::proofs::PolledTooSeldom::loses))]
pub fn links_polled_too_seldom_lose()
    ensures { LosesWhereAScanLater (record { id = 0; per_block = 64; waiting = 1024 }) 1 1 }
{}

/// The premises can be met: under the standard limits a link with 64 open inputs and filters of 5, whose module has
/// restarted once, is kept up with for two rounds, in time and in time for each input, and its record gains 255
/// transitions.
#[tactic(auto, using(crate::proofs::Instances::kept_up_after_a_restart))]
pub fn links_are_kept_up_with_after_restarts()
    ensures { IsKeptUpAfterRestarts (standard_settings 0) 64 5 15 15 1 2 255 }
{}

/// Over a line of a rate, from a settled point on, after restarts too: if the bits of a poll, of its answer and of other
/// traffic, and the time that the module takes, fit into the pace, and blocks keep up at that pace, each round ends before the
/// next one, the record gains each transition once, in order, and no gap mark, and none is later than `most_late` scans, the
/// time on the line included. This holds also if the CPU's clock drifts and its polls are late, both as much as they may, and if
/// the line loses rounds, as many in a row as it may.
pub fn arrives_in_time_at_a_rate()
    ensures { HoldsWhateverRestarts ArrivesInTimeAtARate }
{}

/// The bound is reached at the edge: with 64 open inputs and filters of 5, over a synchronous line of 614,400 bit/s, a round
/// takes the whole of a pace of 4 scans, and a transition can be 7 scans late.
#[tactic(auto, using(crate::proofs::RateAtEdge::late_7))]
pub fn links_at_a_rate_are_as_late()
    ensures { IsAsLateAtARate (record { kind = Synchronous; rate = 614400; answer = 0; other = 0; lost = 0; drift = 0; jitter = 0 }) 64 5 4 7 }
{}

/// If a round takes one scan more than the pace, a link can lose transitions: with 64 open inputs, filters of 1, blocks of 64,
/// and rounds of 2 scans at a pace of 1.
#[tactic(auto, using(crate::proofs::RateBeyond::loses))]
pub fn links_beyond_their_rate_lose()
    ensures { LosesWhereARoundIsLonger (record { id = 0; per_block = 64; waiting = 128 })
        (record { kind = Synchronous; rate = 2000000; answer = 0; other = 1900; lost = 0; drift = 0; jitter = 0 }) 64 1 1 }
{}

/// Scans that come while a poll or its answer is under way lead to the same machine as scans before the poll is sent, and
/// after its answer is received: a clean round may take time.
#[tactic(auto, using(crate::proofs::MovedScans::scans_move_out))]
pub fn scans_move_out_of_rounds()
    ensures { (settings : Settings) (first : ℕ) (machine : Machine)
        → ScansMoveOut settings first machine }
{}

/// Events lead to at most one machine.
#[tactic(auto, using(crate::proofs::Runs::runs_lead_to_one_machine))]
pub fn runs_lead_to_one_machine()
    ensures { LeadToOneMachine }
{}

/// The promises are for settings in their ranges. The standard settings, and those with any limits, are in their ranges, and
/// have room for all that the open inputs can report while blocks keep up (law `kept_up` of `fio_module`).
pub fn settings_are_in_range()
    ensures standard { (id : ℕ) → id ≤ 255 → AreInRange (standard_settings id) }
    ensures limits { (id : ℕ) (limits : Limits) → id ≤ 255
        → are_limits limits.per_block limits.waiting ≡ true → AreInRange (settings_with id limits) }
    ensures room { (id : ℕ) → HasRoom (standard_settings id) }
    ensures room_by_limits { (id : ℕ) (limits : Limits) → are_limits limits.per_block limits.waiting ≡ true
        → HasRoom (settings_with id limits) }
{}

/// Whatever the maker of the module answers to commands 56, 57, 59 and 60, how often, in whatever order and however late, there
/// is a run without his answers in which all else is the same: what reaches the module, each answer of its own, and the CPU's
/// record and number.
#[tactic(auto, using(crate::proofs::AnsweredRuns::runs_without_answers))]
pub fn makers_answers_change_nothing()
    ensures { RunsWithoutAnswers }
{}

/// So what is promised of the record stands: the headline, `record_rises` and `one_stretch_of_each_life_is_taken`.
#[tactic(auto, using(crate::proofs::AnsweredRuns::answers_keep_record))]
pub fn makers_answers_keep_the_record()
    ensures { AnswersKeepRecord }
{}

/// Such a run exists: the maker answers 56, 57 and 59, and the CPU hears these answers and takes a block.
#[tactic(auto, using(crate::proofs::AnsweredExamples::makers_may_answer))]
pub fn makers_may_answer()
    ensures { MakersMayAnswer }
{}
