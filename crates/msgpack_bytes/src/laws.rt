//! What holds of items, for the crates above; specs/Laws.antt and specs/Spelling.antt say it.

ghost use Rattle.msgpack_bytes.specs.Laws.{IsPrefixFree, HasOneFront, HasParts, HasPartsWithin, IsItemDeeper, IsOpenForZeros, IsLongOnly, IsItemRead, IsOpenRead, IsReservedRead, IsDeepRead};
ghost use Rattle.msgpack_bytes.specs.Spelling.{IsUintSpelled, IsStrSpelled, IsBinSpelled, IsArraySpelled, IsMapSpelled, IsBoolSpelled};

/// No item within the limits is a proper beginning of another, so bytes begin with one at most.
pub fn prefix_free()
    ensures free { IsPrefixFree }
    ensures one_front { HasOneFront }
{}

/// The parts of a container are items that nest one less deep; those of an item within the limits
/// are within them too.
pub fn parts()
    ensures deeper { IsItemDeeper }
    ensures parts { HasParts }
    ensures parts_within { HasPartsWithin }
{}

/// Open bytes become an item within the limits by some zeros, and by nothing shorter.
pub fn open_for_zeros()
    ensures { IsOpenForZeros }
{}

/// Where the length is at fault nothing else is.
pub fn long_only()
    ensures { IsLongOnly }
{}

/// What the `put_` calls append says what was asked, and nothing shorter does.
pub fn spelled_shortest()
    ensures uint { IsUintSpelled }
    ensures str { IsStrSpelled }
    ensures bin { IsBinSpelled }
    ensures array { IsArraySpelled }
    ensures map { IsMapSpelled }
    ensures bool { IsBoolSpelled }
{}

/// Reading by recursion on the depth says the same as the relations.
pub fn read_by_recursion()
    ensures items { IsItemRead }
    ensures open { IsOpenRead }
    ensures reserved { IsReservedRead }
    ensures deep { IsDeepRead }
{}
