ghost use Rattle.sa_arena.specs.Laws.{ShareNoByte, LieBelowCursor, CursorIsLiveAndDead, OffsetsTellExtents, NumbersTellOffsets};

/// No two extents of an arena share a byte, prefixes included, and each lies below the cursor: its
/// clauses are the laws.
pub fn extents_share_no_byte()
    ensures apart { ShareNoByte }
    ensures below { LieBelowCursor }
{}

/// The cursor is the live bytes and the dead bytes: its clause is the law.
pub fn cursor_is_live_and_dead()
    ensures { CursorIsLiveAndDead }
{}

/// The offset of an extent's text tells the extent, and no other offset does: its clauses are the
/// laws.
pub fn offsets_tell_extents()
    ensures numbers { OffsetsTellExtents }
    ensures offsets { NumbersTellOffsets }
{}
