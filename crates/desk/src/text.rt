// The program's lines.
ghost use Rattle.std.specs.Prelude.{◌≡◌, take};
ghost use Rattle.desk.specs.Lines.{line_of};
ghost use Rattle.desk.specs.Text.{outcome_word, tx_line, rec_line, counts_line, not_sealed_line, refused_line};

use crate::Line;
use counters::Outcome;

fn outcome_word(outcome: Outcome) -> &'static [u8]
    ensures { result.now ≡ outcome_word outcome }
{
    match outcome {
        Outcome::Committed => b" committed",
        Outcome::Aborted => b" aborted",
    }
}

// "Each tx line has position, outcome and values read", the first `count` of four: count and array side by side, since
// the contract, which is promised, takes the first so many of four.
pub fn transaction_line(position: u64, outcome: Outcome, count: usize, values: [u64; 4]) -> Line
    ensures { result ≡ line_of (tx_line position outcome (take count values)) }
{
    let mut line = Line::blank();
    line.push_text(b"tx ");
    line.push_number(position);
    line.push_text(outcome_word(outcome));
    line.push_spaced(&values[..count.min(4)]);
    line.push_text(b"\n");
    line
}

// "each rec line number and contents"
pub fn record_line(number: u64, contents: u64) -> Line
    ensures { result ≡ line_of (rec_line number contents) }
{
    let mut line = Line::blank();
    line.push_text(b"rec ");
    line.push_number(number);
    line.push_text(b" ");
    line.push_number(contents);
    line.push_text(b"\n");
    line
}

// "the last line three counts"
pub fn counts_line(steps: u64, refused: u64, waits: u64) -> Line
    ensures { result ≡ line_of (counts_line steps refused waits) }
{
    let mut line = Line::blank();
    line.push_text(b"steps ");
    line.push_number(steps);
    line.push_text(b" refused ");
    line.push_number(refused);
    line.push_text(b" waits ");
    line.push_number(waits);
    line.push_text(b"\n");
    line
}

// ""not sealed" stands in place of the tx and rec lines"
pub fn not_sealed_line() -> Line
    ensures { result ≡ line_of not_sealed_line }
{
    let mut line = Line::blank();
    line.push_text(b"not sealed\n");
    line
}

// "A refused opening prints only "refused" and the number."
pub fn refused_line(number: u64) -> Line
    ensures { result ≡ line_of (refused_line number) }
{
    let mut line = Line::blank();
    line.push_text(b"refused ");
    line.push_number(number);
    line.push_text(b"\n");
    line
}
