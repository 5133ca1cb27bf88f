// Two words, also on a line with a blank between them.
ghost use Rattle.std.specs.Prelude.{◌≡◌, ◌==◌, position};
ghost use Rattle.comparisons.specs.declared.RefusedWord.TheVariants.{Second};
ghost use Rattle.comparisons.specs.Comparing.{decision_of};
ghost use Rattle.commands.specs.Answers.{saying, line_of, fitted};
ghost use Rattle.commands.specs.Words.{decision_said, same_said, single_said, same_line_said};
ghost use Rattle.commands.specs.Promises.{Says};

use crate::replies::put_line;
use crate::saying::{append_refusal, close, refuse};
use crate::{ANSWER, Answer, Lent};
use appending::append;
use comparisons::{Comparison, RefusedWord};
use refusals::{LIMIT, Refusal};

// The refusal of the second word.
fn refuse_second(r: Refusal, out: &mut [u8; ANSWER]) -> Answer
    ensures { Says (fitted (decision_said (decision_of (Err (Second r))))) out.new result }
{
    let named = append(b"second word ", out, 0);
    let end = append_refusal(r, out, named);
    close(end, true, out)
}

// The word for a comparison.
fn name(comparison: Comparison) -> &'static [u8]
    ensures { saying (line_of result.now) ≡ decision_said (decision_of (Ok comparison)) }
{
    match comparison {
        Comparison::Same => b"same",
        Comparison::Inverse => b"inverse",
        Comparison::Different => b"different",
    }
}

// The decision on two words.
fn say_decision(decision: Result<Comparison, RefusedWord>, out: &mut [u8; ANSWER]) -> Answer
    ensures { Says (fitted (decision_said (decision_of decision))) out.new result }
{
    match decision {
        Ok(comparison) => close(put_line(name(comparison), out), false, out),
        Err(RefusedWord::First(r)) => refuse(r, out),
        Err(RefusedWord::Second(r)) => refuse_second(r, out),
    }
}

// Two words: same, inverse or different.
pub fn compare(
    word1: &[u8],
    word2: &[u8],
    first: &mut Lent,
    second: &mut Lent,
    out: &mut [u8; ANSWER],
) -> Answer
    ensures { Says (fitted (same_said word1.now word2.now)) out.new result }
{
    let decision = comparisons::same_element(
        word1,
        &mut first.b,
        &mut first.a,
        &mut first.record,
        word2,
        &mut second.b,
        &mut second.a,
        &mut second.record,
    );
    say_decision(decision, out)
}

// A line with no blank: its word is too long, or it is the only one.
fn refuse_single(line: &[u8], out: &mut [u8; ANSWER]) -> Answer
    ensures { Says (fitted (single_said line.now)) out.new result }
{
    if line.len() > LIMIT {
        return refuse(Refusal::TooManyLetters, out);
    }
    let end = append(b"no second word\n", out, 0);
    close(end, true, out)
}

// The place of the first blank.
fn find_blank(line: &[u8]) -> Option<usize>
    ensures { result ≡ position (λ c. c == 32) line.now }
{
    line.iter().position(|&c| c == b' ')
}

// A line of two words with one blank between them.
pub fn compare_line(
    line: &[u8],
    first: &mut Lent,
    second: &mut Lent,
    out: &mut [u8; ANSWER],
) -> Answer
    ensures { Says (fitted (same_line_said line.now)) out.new result }
{
    let Some(k) = find_blank(line) else {
        return refuse_single(line, out);
    };
    compare(&line[..k], &line[k + 1..], first, second, out)
}
