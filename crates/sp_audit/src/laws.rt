// Laws on serial commits, for those who add to an audit.
ghost use Rattle.std.specs.Prelude.{◌≡◌, ◌+◌, ◌<◌, ◌++◌, ◌∷◌, [], List, length};
ghost use Rattle.sp_rect.specs.Serial.{Serial, RepliesAsPlain, after_all};
ghost use Rattle.sp_rect.specs.declared.record.Record.{Record};
ghost use Rattle.sp_rect.specs.declared.commit.Commit.{Commit};

/// A commit that takes the next place, saw earlier places only, and was told what the records after the
/// commits before it tell, is serial with them.
pub fn next_commit_is_serial()
    ensures { (base : List Record) (commits : List Commit) (commit : Commit) → Serial base commits → commit.place ≡ length commits + 1 → commit.seen < commit.place → RepliesAsPlain (after_all base commits) commit.ops → Serial base (commits ++ commit ∷ []) }
{}
