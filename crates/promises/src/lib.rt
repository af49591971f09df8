// The promises about the definitions. Each function does nothing: its contract is a promise, so that the check fails where one
// no longer holds or is no longer proved.
#![tactic(auto)]

ghost use Rattle.digits.specs.Promise.{CountReadBack, CountOnlyText, WeightReadBack, WeightOnlyText};
ghost use Rattle.texts.specs.Promise.{LineReadBack, LineOnlyText, LineOneText};
ghost use Rattle.texts.specs.Promise.{ScheduleReadBack, ScheduleOnlyText, LineNumbered, JudgedNumbered};
ghost use Rattle.cases.specs.Table.{StarredHold};
ghost use Rattle.rules.specs.Kept.{Numbered, StepNumbered, RefusedKeeps, TakenCounts, StandingKept, FreshStands, FreshWhole, WholeKept, RefusedFalls, RoomKept, RoomUnjudged};
ghost use Rattle.decision.specs.Known.{StepAnew, StepKnown, KnownNumbered, KnownKeeps};
ghost use Rattle.published.specs.Follows.{TakenFollows, AllowedTaken, OneEvent, OneOutcome, OnlyOutcome, StepsAlike, DueByCode};
ghost use Rattle.published.specs.Premises.{FirstGiven};
ghost use Rattle.rules.specs.Queue.{QueueHolds};
ghost use Rattle.rules.specs.Reached.{ReachedHolds};
ghost use Rattle.run.specs.Prefix.{RanThrough};
ghost use Rattle.reported.specs.Promise.{ReportShort, ReportWhole};
ghost use Rattle.image.specs.Promise.{ImageLong, ImageFaithful, ImageWhole, ImageTaken, ImageOnly};
ghost use Rattle.outside.specs.Promise.{CallOrdered, CallNumbered, CallKeeps, CallTakes};
ghost use Rattle.promises.specs.Shown.{ReportShows};
ghost use Rattle.promises.specs.Writing.{WrittenBack, OnlyItsBytes, RefusedUntouched, PrintedUntouched, SaidPrinted};

// Each number has one text, and the readers take those texts only.
pub fn numbers_have_one_text()
    ensures { CountReadBack × CountOnlyText × WeightReadBack × WeightOnlyText }
{}

// Each line in range has one text, no two share one, and the reader takes those texts only.
pub fn lines_have_one_text()
    ensures { LineReadBack × LineOnlyText × LineOneText }
{}

// Every schedule whose text fits has one text, and the reader takes those texts only.
pub fn schedules_have_one_text()
    ensures { ScheduleReadBack × ScheduleOnlyText }
{}

// Every text is taken or refused by 1, 2, 3 or 4, every line read or refused by 2 or 3.
pub fn texts_are_numbered()
    ensures { JudgedNumbered × LineNumbered }
{}

// A line that was written is read back, only its own bytes change, and a refused one changes none, nor does a printed one. An answer is
// printed as its word and its values.
pub fn lines_are_written()
    ensures { WrittenBack × OnlyItsBytes × RefusedUntouched × PrintedUntouched × SaidPrinted }
{}

// The starred cases and the whole listing, as one table under one statement.
pub fn starred_cases_hold()
    ensures { StarredHold }
{}

// A step is answered with the number of its refusal, one of 6 to 14; a refused one gives back the same state and list, a taken one counts one
// step.
pub fn refused_steps_keep()
    ensures { Numbered × StepNumbered × RefusedKeeps × TakenCounts }
{}

// Every step leaves a standing state standing; a fresh machine stands, and a refused opening gives none.
pub fn standing_is_kept()
    ensures { StandingKept × FreshStands × RefusedFalls }
{}

// Room that a machine lacks is changed by no step; the lists that stand for arrays stay as long as the arrays.
pub fn room_is_kept()
    ensures { RoomKept × FreshWhole × WholeKept }
{}

// Room is neither judged nor looked at: machines that agree outside it stand alike, and a step of either is the same but for their room.
pub fn room_is_not_judged()
    ensures { RoomUnjudged × StepsAlike }
{}

// A run need not judge its state anew at each step: of a state that stands, the step is the same.
pub fn states_are_judged_once()
    ensures { StepAnew × StepKnown × KnownNumbered × KnownKeeps }
{}

// A step is taken exactly when it is admitted and the published rules allow it, and it does what the rule says. The line that is due at a
// place is the one that the published code waits for.
pub fn steps_follow_the_rules()
    ensures { TakenFollows × AllowedTaken × OneEvent × DueByCode }
{}

// What the rules say of a step names the whole of what it leaves, answer, state and list: two outcomes that do so are equal.
pub fn steps_have_one_outcome()
    ensures { OneOutcome × OnlyOutcome }
{}

// Each number of a refused step is given exactly when its own condition fails and none before it does; of 12 and 13 these are the rule's
// premises, on the thread's view and on the history.
pub fn refusals_are_exact()
    ensures { FirstGiven }
{}

// From a fresh machine, over any steps, refused ones included: the won calls' answers are those of a plain first-in first-out list of at
// most C weights, each rank is taken at most once and answered as put, the taker's view covers the putter's, one stamp is accepted.
pub fn the_queue_holds()
    ensures { QueueHolds }
{}

// A schedule's run is that run over any steps, up to its first refused one: same answers, state and list.
pub fn runs_are_one()
    ensures { RanThrough }
{}

// And its report is told by that run's log: the answers, the plain list with `-` while a putter has not published, the refused step.
pub fn reports_show_the_run()
    ensures { ReportShows }
{}

// In every state that is reached, every stamp of every view is in its cell's history, and no thread is stuck at a plain read.
pub fn no_thread_is_stuck()
    ensures { ReachedHolds }
{}

// The image of a state loses nothing: a state that is read from its image is that state. Whatever is read is a state. Each state has one
// image, and nothing else is taken for one.
pub fn images_are_faithful()
    ensures { ImageLong × ImageFaithful × ImageWhole × ImageTaken × ImageOnly }
{}

// A call from outside returns 0 or a refusal's number. A refused one keeps all that it is lent; a taken one leaves the image of the state
// that the step leaves.
pub fn calls_keep_or_take()
    ensures { CallOrdered × CallNumbered × CallKeeps × CallTakes }
{}

// Every report fits the room that the program has for it, the first line 64 bytes and the others 131,072, so nothing of one is lost.
pub fn reports_are_whole()
    ensures { ReportShort × ReportWhole }
{}
