// The calls for C and Rust as a static library: each passes on to the call of the same name of the library thompson,
// and states its contract again. Parameters are those of C's header, include/thompson.h, slices as C hands them over.
#![tactic(auto)]

ghost use Rattle.refusals.specs.Outcomes.{verdict_of, reply_of};
ghost use Rattle.refusals.specs.Memory.{memory};
ghost use Rattle.refusals.specs.Placing.{Placed};
ghost use Rattle.records.specs.Checking.{Checked};
ghost use Rattle.words.specs.Recording.{Recorded};
ghost use Rattle.comparisons.specs.Comparing.{decision_of, Compared};
ghost use Rattle.wordlists.specs.Listing.{Listed};
ghost use Rattle.lengths.specs.Weights.{form_length};
ghost use Rattle.pairs.specs.Promises.{Paired, label_sum, Measured};
ghost use Rattle.spelling.specs.Promises.{Spelled};
ghost use Rattle.notation.specs.Promises.{TextRecorded, TextWritten};
ghost use Rattle.registers.specs.Answers.{RegisterChecked};
ghost use Rattle.updates.specs.Accounts.{AccountRead};
ghost use Rattle.updates.specs.Entering.{replied_of, EnteredWord};
ghost use Rattle.trees.specs.Shapes.{subtree_end_value};
ghost use Rattle.packed.specs.Packing.{carets_before_value};
ghost use Rattle.packed.specs.Answers.{node_end_of};
ghost use Rattle.packed.specs.Promises.{packing, unpacking, growing, Repacked, AnswersNode};
ghost use Rattle.thompson.specs.Codes.{code_of, code_of_decision, code_of_reply, live_of, Passed};

use thompson::{Answer, Filing};

// Word to record; the value is the number of bytes written.
#[unsafe(no_mangle)]
pub extern "C" fn thompson_word_to_record(
    word: &[u8],
    b_table: &mut [u16],
    a_table: &mut [u16],
    record: &mut [u8],
) -> Answer
    ensures { Passed (λ a. code_of (reply_of a)) (Recorded word.now
        (memory b_table.old a_table.old «record».old)
        (memory b_table.new a_table.new «record».new)) result }
{
    thompson::thompson_word_to_record(word, b_table, a_table, record)
}

// Many words in one call; the value is the number of bytes written.
#[unsafe(no_mangle)]
pub extern "C" fn thompson_list_to_records(
    list: &[u8],
    b_table: &mut [u16],
    a_table: &mut [u16],
    records: &mut [u8],
) -> Answer
    ensures { Passed (λ a. code_of (reply_of a)) (Listed list.now
        (memory b_table.old a_table.old records.old)
        (memory b_table.new a_table.new records.new)) result }
{
    thompson::thompson_list_to_records(list, b_table, a_table, records)
}

// Record check; the value is 0.
#[unsafe(no_mangle)]
pub extern "C" fn thompson_check_record(record: &[u8]) -> Answer
    ensures { Passed (λ a. code_of (verdict_of a)) (Checked «record».now) result }
{
    thompson::thompson_check_record(record)
}

// Record to word; the value is the number of letters.
#[unsafe(no_mangle)]
pub extern "C" fn thompson_record_to_word(record: &[u8], word: &mut [u8]) -> Answer
    ensures { Passed (λ a. code_of (reply_of a))
        (Spelled «record».now word.old word.new) result }
{
    thompson::thompson_record_to_word(record, word)
}

// Text to record; the value is the number of bytes written.
#[unsafe(no_mangle)]
pub extern "C" fn thompson_text_to_record(
    text: &[u8],
    b_table: &mut [u16],
    a_table: &mut [u16],
    record: &mut [u8],
) -> Answer
    ensures { Passed (λ a. code_of (reply_of a)) (TextRecorded text.now
        (memory b_table.old a_table.old «record».old)
        (memory b_table.new a_table.new «record».new)) result }
{
    thompson::thompson_text_to_record(text, b_table, a_table, record)
}

// Record to text; the value is the number of bytes of the text.
#[unsafe(no_mangle)]
pub extern "C" fn thompson_record_to_text(record: &[u8], text: &mut [u8]) -> Answer
    ensures { Passed (λ a. code_of (reply_of a))
        (TextWritten «record».now text.old text.new) result }
{
    thompson::thompson_record_to_text(record, text)
}

// Record to tree pair; the value is the number of carets of each tree.
#[unsafe(no_mangle)]
pub extern "C" fn thompson_record_to_tree_pair(
    record: &[u8],
    t_minus: &mut [u8],
    t_plus: &mut [u8],
) -> Answer
    ensures { Passed (λ a. code_of (reply_of a))
        (Paired «record».now t_minus.old t_plus.old
        t_minus.new t_plus.new) result }
{
    thompson::thompson_record_to_tree_pair(record, t_minus, t_plus)
}

// Record to length; the value is the length.
#[unsafe(no_mangle)]
pub extern "C" fn thompson_record_to_length(record: &[u8]) -> Answer
    ensures { Passed (λ a. code_of (reply_of a)) (Measured form_length «record».now) result }
{
    thompson::thompson_record_to_length(record)
}

// Record to length by Table 1; the value is the length.
#[unsafe(no_mangle)]
pub extern "C" fn thompson_record_to_label_length(record: &[u8]) -> Answer
    ensures { Passed (λ a. code_of (reply_of a)) (Measured label_sum «record».now) result }
{
    thompson::thompson_record_to_label_length(record)
}

// Two words; the value is 1 where they are the same element, and 0 where they are not.
#[unsafe(no_mangle)]
pub extern "C" fn thompson_same_element(
    word1: &[u8],
    b_table1: &mut [u16],
    a_table1: &mut [u16],
    record1: &mut [u8],
    word2: &[u8],
    b_table2: &mut [u16],
    a_table2: &mut [u16],
    record2: &mut [u8],
) -> Answer
    ensures { Passed (λ a. code_of_decision (decision_of a)) (Compared word1.now
        (memory b_table1.old a_table1.old record1.old)
        (memory b_table1.new a_table1.new record1.new)
        word2.now
        (memory b_table2.old a_table2.old record2.old)
        (memory b_table2.new a_table2.new record2.new)) result }
{
    thompson::thompson_same_element(
        word1, b_table1, a_table1, record1, word2, b_table2, a_table2, record2,
    )
}

// A word filed into a register under a holder; the value is the entry's number.
#[unsafe(no_mangle)]
pub extern "C" fn thompson_enter_word(
    word: &[u8],
    b_table: &mut [u16],
    a_table: &mut [u16],
    record: &mut [u8],
    holder: u16,
    register: &mut [u8],
) -> Filing
    ensures { Passed (λ a. code_of_reply (replied_of a)) (EnteredWord word.now
        (memory b_table.old a_table.old «record».old)
        (memory b_table.new a_table.new «record».new)
        holder register.old register.new) result }
{
    thompson::thompson_enter_word(word, b_table, a_table, record, holder, register)
}

// Register check; the value is 0.
#[unsafe(no_mangle)]
pub extern "C" fn thompson_check_register(register: &[u8]) -> Answer
    ensures { Passed (λ a. code_of (verdict_of a)) (RegisterChecked register.now) result }
{
    thompson::thompson_check_register(register)
}

// The live entries of a holder; the value is their number.
#[unsafe(no_mangle)]
pub extern "C" fn thompson_live_entries(register: &[u8], holder: u16) -> Answer
    ensures { Passed (λ a. code_of (live_of a)) (AccountRead register.now holder) result }
{
    thompson::thompson_live_entries(register, holder)
}

// Shape to packed shape; the value is how many numbers it takes.
#[unsafe(no_mangle)]
pub extern "C" fn thompson_pack_shape(
    shape: &[u8],
    numbers: &mut [u64],
    summary: &mut [u16],
) -> Answer
    ensures { Passed (λ a. code_of (reply_of a))
        (Repacked (packing shape.now numbers.old summary.old)
        numbers.old summary.old numbers.new summary.new) result }
{
    thompson::thompson_pack_shape(shape, numbers, summary)
}

// Packed shape to shape; the value is the number of bytes written.
#[unsafe(no_mangle)]
pub extern "C" fn thompson_unpack_shape(
    numbers: &[u64],
    summary: &[u16],
    shape: &mut [u8],
) -> Answer
    ensures { Passed (λ a. code_of (reply_of a))
        (Placed (unpacking numbers.now summary.now shape.old)
        shape.old shape.new) result }
{
    thompson::thompson_unpack_shape(numbers, summary, shape)
}

// The carets before a node of a packed shape; the value is their number.
#[unsafe(no_mangle)]
pub extern "C" fn thompson_carets_before(numbers: &[u64], summary: &[u16], node: u64) -> Answer
    ensures { Passed (λ a. code_of (reply_of a)) (λ a. AnswersNode (λ s. carets_before_value s node)
        numbers.now summary.now node (reply_of a)) result }
{
    thompson::thompson_carets_before(numbers, summary, node)
}

// Where the subtree of a node of a packed shape ends; the value is the node just behind its last.
#[unsafe(no_mangle)]
pub extern "C" fn thompson_subtree_end(numbers: &[u64], summary: &[u16], node: u64) -> Answer
    ensures { Passed (λ a. code_of (node_end_of a)) (λ a. AnswersNode (λ s. subtree_end_value s node)
        numbers.now summary.now node (node_end_of a)) result }
{
    thompson::thompson_subtree_end(numbers, summary, node)
}

// A caret grown at a leaf of a packed shape; the value is how many numbers the grown shape takes. No tree within the
// bound has a leaf above 65,535.
#[unsafe(no_mangle)]
pub extern "C" fn thompson_grow_caret(numbers: &mut [u64], summary: &mut [u16], leaf: u64) -> Answer
    ensures { Passed (λ a. code_of (reply_of a))
        (Repacked (growing numbers.old summary.old leaf)
        numbers.old summary.old numbers.new summary.new) result }
{
    thompson::thompson_grow_caret(numbers, summary, leaf)
}
