//! Codes, chairs and votes as a caller in C gives them.
ghost use Rattle.std.specs.Prelude.{◌≡◌, Ok};
ghost use Rattle.c_values.specs.Given.{ended_by_zero, given_chair, given_code, given_seat, given_votes, seat_number};

use council_core::{ChairId, MemberCode, Refusal, Votes};

// The code in a command that names no member.
pub(crate) const NO_CODE: [u8; 4] = [0; 4];

pub(crate) fn code_of(code: &[u8; 4]) -> Result<MemberCode, Refusal>
    ensures { result ≡ given_code code.now }
{
    if code[3] == 0 {
        MemberCode::new(&code[..3])
    } else {
        MemberCode::new(code)
    }
}

// A code's letters and a 0.
pub(crate) fn code_for(code: &MemberCode) -> [u8; 4]
    ensures written { result ≡ ended_by_zero code.now }
    ensures read_back { given_code result ≡ Ok code.now }
{
    let [a, b, c] = code.letters();
    [a, b, c, 0]
}

pub(crate) fn chair_of(number: u64) -> Result<ChairId, Refusal>
    ensures { result ≡ given_chair number }
{
    match u8::try_from(number) {
        Ok(number) => ChairId::new(number),
        Err(_) => Err(Refusal::BadChair),
    }
}

pub(crate) fn chair_for(chair: ChairId) -> u64
    ensures written { result ≡ chair }
    ensures read_back { given_chair result ≡ Ok chair }
{
    u64::from(chair.number())
}

// The chair with this number, or none for 0.
pub(crate) fn seat_of(number: u64) -> Result<Option<ChairId>, Refusal>
    ensures { result ≡ given_seat number }
{
    if number == 0 {
        return Ok(None);
    }
    let chair = chair_of(number)?;
    Ok(Some(chair))
}

// The number of a chair, or 0 for none.
pub(crate) fn seat_for(seat: Option<ChairId>) -> u64
    ensures written { result ≡ seat_number seat }
    ensures read_back { given_seat result ≡ Ok seat }
{
    match seat {
        Some(chair) => chair_for(chair),
        None => 0,
    }
}

pub(crate) fn votes_of(number: u64) -> Result<Votes, Refusal>
    ensures { result ≡ given_votes number }
{
    Votes::new(number)
}

pub(crate) fn votes_for(votes: Votes) -> u64
    ensures written { result ≡ votes }
    ensures read_back { given_votes result ≡ Ok votes }
{
    votes.number()
}
