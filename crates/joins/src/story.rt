// What is promised of joins, whatever is done in a row.
ghost use Rattle.joins.specs.Story.{JoinsKept};
ghost use Rattle.joins.specs.Matched.{LeftByPlace};

// The theorem that a lane goes on once from each join that was opened for it and from no other, and that no join is open at the end;
// and that the stack stays that of the open joins where lanes go on from one.
pub fn joins_kept_stands()
    ensures kept { JoinsKept }
    ensures placed { LeftByPlace }
{}
