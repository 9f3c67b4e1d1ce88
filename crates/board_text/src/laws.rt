//! Laws of the text, stated as contracts of functions with empty bodies: what is written reads
//! back, and what is printed of a reading determines it.
ghost use Rattle.board_text.specs.Laws.{InputLaw, MajorityLaw, MemberLaw, NoOtherNumberLaw, NumberLaw};
ghost use Rattle.board_text.specs.Laws.{OneWordLaw, ReadingLaw, RequestLaw};

/// A number printed and read back is itself, for every number below 2^64. What reads as a number is
/// that number as it is printed, after zeros.
pub fn number_law()
    ensures read_back { NumberLaw }
    ensures no_other { NoOtherNumberLaw }
{}

/// The word of each majority reads as that majority, and no other field does.
pub fn majority_law()
    ensures read_back { MajorityLaw }
    ensures no_other { OneWordLaw }
{}

/// Each request of a script, written as a CSV record with any of its fields quoted, reads as
/// itself.
pub fn request_law()
    ensures read_back { RequestLaw }
{}

/// Each member, written as a CSV record with any of its fields quoted, reads as itself.
pub fn member_law()
    ensures read_back { MemberLaw }
{}

/// The text of an input with at most `MAX_MEMBERS` members and any script of requests, any of its
/// fields quoted, opens with these members, and its script has the records of these requests.
pub fn input_law()
    ensures read_back { InputLaw }
{}

/// The lines of two readings are equal only if the readings are: the reader, the majority and the
/// sheet.
pub fn reading_law()
    ensures determined { ReadingLaw }
{}
