// The calls for C and Rust. Each passes on to the proved call and answers two numbers: the refusal's number and place,
// or 0 and the call's value. In the two-word call 256 is added to the number where the second word is refused. A filing
// answers two numbers more. Crate thompson_c exports them, each under its name.
#![tactic(auto)]

ghost use Rattle.std.specs.Prelude.{◌≡◌, refl, ℕ, Result, Ok, Err};
ghost use Rattle.refusals.specs.declared.Refusal.{Refusal};
ghost use Rattle.refusals.specs.Outcomes.{Outcome, accepted, refusal, verdict_of, reply_of};
ghost use Rattle.refusals.specs.Memory.{memory};
ghost use Rattle.refusals.specs.Placing.{Placed};
ghost use Rattle.records.specs.Checking.{Checked};
ghost use Rattle.words.specs.Recording.{Recorded};
ghost use Rattle.comparisons.specs.Comparing.{decision_of, Compared};
ghost use Rattle.wordlists.specs.Listing.{Listed};
ghost use Rattle.lengths.specs.Weights.{form_length};
ghost use Rattle.pairs.specs.Promises.{Paired, label_sum, Measured};
ghost use Rattle.spelling.specs.Promises.{Spelled};
ghost use Rattle.notation.specs.Promises.{TextRecorded, TextWritten};
ghost use Rattle.registers.specs.Answers.{RegisterChecked};
ghost use Rattle.updates.specs.Accounts.{AccountRead};
ghost use Rattle.updates.specs.Entering.{replied_of, EnteredWord};
ghost use Rattle.trees.specs.Shapes.{subtree_end_value};
ghost use Rattle.packed.specs.Packing.{carets_before_value};
ghost use Rattle.packed.specs.Answers.{node_end_of};
ghost use Rattle.packed.specs.Promises.{packing, unpacking, growing, Repacked, AnswersNode};
ghost use Rattle.thompson.specs.Codes.{code_of, code_of_decision, code_of_reply, live_of, Passed};

use comparisons::{Comparison, RefusedWord};
use refusals::{LeafNumber, NodeNumber, Refusal};
use updates::{Account, Entered};

// A refusal's number and place, or 0 and the call's value: C, which reads it, has no Result.
#[repr(C)]
#[derive(Clone, Copy, Debug, PartialEq, Eq)]
pub struct Answer {
    pub refusal: u64,
    pub value: u64,
}

// A filing's answer: a refusal's number and place, or 0 and the entry's number; 1 where that entry held the element
// or its inverse before, else 0; and the word that this is said of, 0 where one word is filed. C reads it too.
#[repr(C)]
#[derive(Clone, Copy, Debug, PartialEq, Eq)]
pub struct Filing {
    pub refusal: u64,
    pub value: u64,
    pub present: u64,
    pub word: u64,
}

// A refusal's number and place.
impl From<Refusal> for Answer {
    ghost from_gives = { λ r a. a ≡ code_of (refusal r) };

    fn from(r: Refusal) -> Answer {
        Answer {
            refusal: u64::from(r.number()),
            value: r.place() as u64,
        }
    }
}

// What a call gives where nothing is refused, as one number.
trait Value {
    ghost outcome: { Result Self Refusal → Outcome ℕ };

    fn number(self) -> u64
        ensures { outcome (Ok self) ≡ accepted result };

    ghost refused: { (r : Refusal) → outcome (Err r) ≡ refusal r };
}

// Nothing, as after a check: 0.
impl Value for () {
    ghost outcome = { verdict_of };

    ghost refused = { λ _. refl };

    fn number(self) -> u64 {
        0
    }
}

// A count.
impl Value for usize {
    ghost outcome = { reply_of };

    ghost refused = { λ _. refl };

    fn number(self) -> u64 {
        self as u64
    }
}

// The live count of an account.
impl Value for Account {
    ghost outcome = { live_of };

    ghost refused = { λ _. refl };

    fn number(self) -> u64 {
        self.live
    }
}

// The number of a node.
impl Value for NodeNumber {
    ghost outcome = { node_end_of };

    ghost refused = { λ _. refl };

    fn number(self) -> u64 {
        self.0 as u64
    }
}

// The numbers of what a call answers.
impl<T: Value> From<Result<T, Refusal>> for Answer {
    ghost from_gives = { λ r a. a ≡ code_of (T.outcome r) };

    fn from(r: Result<T, Refusal>) -> Answer {
        match r {
            Ok(x) => Answer {
                refusal: 0,
                value: x.number(),
            },
            Err(e) => Answer::from(e),
        }
    }
}

// Those of two words: 1 for the same element, 2 for inverse ones, 0 for others; the second word's refusal has 256 more.
impl From<Result<Comparison, RefusedWord>> for Answer {
    ghost from_gives = { λ r a. a ≡ code_of_decision (decision_of r) };

    fn from(r: Result<Comparison, RefusedWord>) -> Answer {
        let (refusal, value) = match r {
            Ok(Comparison::Same) => (0, 1),
            Ok(Comparison::Inverse) => (0, 2),
            Ok(Comparison::Different) => (0, 0),
            Err(RefusedWord::First(e)) => (u64::from(e.number()), e.place() as u64),
            Err(RefusedWord::Second(e)) => (u64::from(e.number()) + 256, e.place() as u64),
        };
        Answer { refusal, value }
    }
}

// The four numbers of a filing.
impl From<Result<Entered, Refusal>> for Filing {
    ghost from_gives = { λ r f. f ≡ code_of_reply (replied_of r) };

    fn from(r: Result<Entered, Refusal>) -> Filing {
        let (refusal, value, present) = match r {
            Ok(Entered::New(n, _)) => (0, u64::from(n), 0),
            Ok(Entered::Present(n, _)) => (0, u64::from(n), 1),
            Err(e) => (u64::from(e.number()), e.place() as u64, 0),
        };
        Filing {
            refusal,
            value,
            present,
            word: 0,
        }
    }
}

// Word to record; the value is the number of bytes written.
pub fn thompson_word_to_record(
    word: &[u8],
    b_table: &mut [u16],
    a_table: &mut [u16],
    record: &mut [u8],
) -> Answer
    ensures { Passed (λ a. code_of (reply_of a)) (Recorded word.now
        (memory b_table.old a_table.old «record».old)
        (memory b_table.new a_table.new «record».new)) result }
{
    Answer::from(words::word_to_record(word, b_table, a_table, record))
}

// Many words in one call; the value is the number of bytes written.
pub fn thompson_list_to_records(
    list: &[u8],
    b_table: &mut [u16],
    a_table: &mut [u16],
    records: &mut [u8],
) -> Answer
    ensures { Passed (λ a. code_of (reply_of a)) (Listed list.now
        (memory b_table.old a_table.old records.old)
        (memory b_table.new a_table.new records.new)) result }
{
    Answer::from(wordlists::list_to_records(list, b_table, a_table, records))
}

// Record check; the value is 0.
pub fn thompson_check_record(record: &[u8]) -> Answer
    ensures { Passed (λ a. code_of (verdict_of a)) (Checked «record».now) result }
{
    Answer::from(records::check_record(record))
}

// Record to word; the value is the number of letters.
pub fn thompson_record_to_word(record: &[u8], word: &mut [u8]) -> Answer
    ensures { Passed (λ a. code_of (reply_of a))
        (Spelled «record».now word.old word.new) result }
{
    Answer::from(spelling::record_to_word(record, word))
}

// Text to record; the value is the number of bytes written.
pub fn thompson_text_to_record(
    text: &[u8],
    b_table: &mut [u16],
    a_table: &mut [u16],
    record: &mut [u8],
) -> Answer
    ensures { Passed (λ a. code_of (reply_of a)) (TextRecorded text.now
        (memory b_table.old a_table.old «record».old)
        (memory b_table.new a_table.new «record».new)) result }
{
    Answer::from(notation::text_to_record(text, b_table, a_table, record))
}

// Record to text; the value is the number of bytes of the text.
pub fn thompson_record_to_text(record: &[u8], text: &mut [u8]) -> Answer
    ensures { Passed (λ a. code_of (reply_of a))
        (TextWritten «record».now text.old text.new) result }
{
    Answer::from(notation::record_to_text(record, text))
}

// Record to tree pair; the value is the number of carets of each tree.
pub fn thompson_record_to_tree_pair(record: &[u8], t_minus: &mut [u8], t_plus: &mut [u8]) -> Answer
    ensures { Passed (λ a. code_of (reply_of a))
        (Paired «record».now t_minus.old t_plus.old
        t_minus.new t_plus.new) result }
{
    Answer::from(pairs::record_to_tree_pair(record, t_minus, t_plus))
}

// Record to length; the value is the length.
pub fn thompson_record_to_length(record: &[u8]) -> Answer
    ensures { Passed (λ a. code_of (reply_of a)) (Measured form_length «record».now) result }
{
    Answer::from(pairs::record_to_length(record))
}

// Record to length by Table 1; the value is the length.
pub fn thompson_record_to_label_length(record: &[u8]) -> Answer
    ensures { Passed (λ a. code_of (reply_of a)) (Measured label_sum «record».now) result }
{
    Answer::from(pairs::record_to_label_length(record))
}

// Two words; the value is 1 where they are the same element, 2 where they are inverse, and 0 where they are neither.
// The parameters are those of C's header.
pub fn thompson_same_element(
    word1: &[u8],
    b_table1: &mut [u16],
    a_table1: &mut [u16],
    record1: &mut [u8],
    word2: &[u8],
    b_table2: &mut [u16],
    a_table2: &mut [u16],
    record2: &mut [u8],
) -> Answer
    ensures { Passed (λ a. code_of_decision (decision_of a)) (Compared word1.now
        (memory b_table1.old a_table1.old record1.old)
        (memory b_table1.new a_table1.new record1.new)
        word2.now
        (memory b_table2.old a_table2.old record2.old)
        (memory b_table2.new a_table2.new record2.new)) result }
{
    Answer::from(comparisons::same_element(
        word1, b_table1, a_table1, record1, word2, b_table2, a_table2, record2,
    ))
}

// A word filed into a register under a holder; the value is the entry's number.
pub fn thompson_enter_word(
    word: &[u8],
    b_table: &mut [u16],
    a_table: &mut [u16],
    record: &mut [u8],
    holder: u16,
    register: &mut [u8],
) -> Filing
    ensures { Passed (λ a. code_of_reply (replied_of a)) (EnteredWord word.now
        (memory b_table.old a_table.old «record».old)
        (memory b_table.new a_table.new «record».new)
        holder register.old register.new) result }
{
    Filing::from(updates::enter_word(word, b_table, a_table, record, holder, register))
}

// Register check; the value is 0.
pub fn thompson_check_register(register: &[u8]) -> Answer
    ensures { Passed (λ a. code_of (verdict_of a)) (RegisterChecked register.now) result }
{
    Answer::from(registers::check_register(register))
}

// The live entries of a holder; the value is their number.
pub fn thompson_live_entries(register: &[u8], holder: u16) -> Answer
    ensures { Passed (λ a. code_of (live_of a)) (AccountRead register.now holder) result }
{
    Answer::from(updates::account_of(register, holder))
}

// Shape to packed shape; the value is how many numbers it takes.
pub fn thompson_pack_shape(shape: &[u8], numbers: &mut [u64], summary: &mut [u16]) -> Answer
    ensures { Passed (λ a. code_of (reply_of a))
        (Repacked (packing shape.now numbers.old summary.old)
        numbers.old summary.old numbers.new summary.new) result }
{
    Answer::from(packed::pack_shape(shape, numbers, summary))
}

// Packed shape to shape; the value is the number of bytes written.
pub fn thompson_unpack_shape(numbers: &[u64], summary: &[u16], shape: &mut [u8]) -> Answer
    ensures { Passed (λ a. code_of (reply_of a))
        (Placed (unpacking numbers.now summary.now shape.old)
        shape.old shape.new) result }
{
    Answer::from(packed::unpack_shape(numbers, summary, shape))
}

// The carets before a node of a packed shape; the value is their number.
pub fn thompson_carets_before(numbers: &[u64], summary: &[u16], node: u64) -> Answer
    ensures { Passed (λ a. code_of (reply_of a)) (λ a. AnswersNode (λ s. carets_before_value s node)
        numbers.now summary.now node (reply_of a)) result }
{
    Answer::from(packed::carets_before(numbers, summary, NodeNumber(node as usize)))
}

// Where the subtree of a node of a packed shape ends; the value is the node just behind its last.
pub fn thompson_subtree_end(numbers: &[u64], summary: &[u16], node: u64) -> Answer
    ensures { Passed (λ a. code_of (node_end_of a)) (λ a. AnswersNode (λ s. subtree_end_value s node)
        numbers.now summary.now node (node_end_of a)) result }
{
    Answer::from(packed::subtree_end(numbers, summary, NodeNumber(node as usize)))
}

// A caret grown at a leaf of a packed shape; the value is how many numbers the grown shape takes. No tree within the
// bound has a leaf above 65,535.
pub fn thompson_grow_caret(numbers: &mut [u64], summary: &mut [u16], leaf: u64) -> Answer
    ensures { Passed (λ a. code_of (reply_of a))
        (Repacked (growing numbers.old summary.old leaf)
        numbers.old summary.old numbers.new summary.new) result }
{
    let Ok(leaf) = u16::try_from(leaf) else {
        return Answer::from(Refusal::NotTree);
    };
    Answer::from(growing::grow_caret(numbers, summary, LeafNumber(leaf)))
}
