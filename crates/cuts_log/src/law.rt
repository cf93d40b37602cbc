// What a log is judged as.
ghost use Rattle.cuts_log.specs.Judging.{BegunTextsAreRight, BoundsAreProved, LogsAreRight};
ghost use Rattle.cuts_log.specs.Judging.{LogsEnd, NothingIsCheaper};
ghost use Rattle.cuts_log.specs.Judging.{StepsAreRight, TextsAreRight, WordsAreRight};

/// A line that begins with a word, and that the log took, is judged right where the log stood. So
/// is the whole log, where its additions and deletions are; and these are, where they are steps and
/// follow by their hints alone.
pub fn logs_are_right()
    ensures words { WordsAreRight }
    ensures logs { LogsAreRight }
    ensures steps { StepsAreRight }
{}

/// A log whose lines stop at the empty clause, and have one, has ended. The text of a log whose
/// lines are steps, and follow by their hints alone, is judged right. Where it has ended, no
/// solution costs less than its cuts hold for. It is judged right for no cost, too, and proves each
/// lower bound that it tells, up to the cost that its cuts hold for. Where a log has failed, the
/// lines that the writer has with their line feeds are judged right.
pub fn texts_are_right()
    ensures end { LogsEnd }
    ensures texts { TextsAreRight }
    ensures begun { BegunTextsAreRight }
    ensures cost { NothingIsCheaper }
    ensures bounds { BoundsAreProved }
{}
