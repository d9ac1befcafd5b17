// What several of the tests share.
use refusals::Refusal;

// The number with which a call is refused, if it is.
pub(crate) fn number<T: Drop>(answer: Result<T, Refusal>) -> Option<u8> {
    answer.err().map(|refusal| refusal.number())
}
