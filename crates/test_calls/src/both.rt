// The length of a record by both calls: Fordham's weights, then Table 1.
use crate::printed;
use cases::counts;

// The two answers, one behind the other.
pub fn lengths(record: &[u8]) {
    printed::answer(thompson::thompson_record_to_length(record));
    counts::print_text(b" ");
    printed::answer(thompson::thompson_record_to_label_length(record));
}
