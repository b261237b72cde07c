// The text of each answer.
ghost use Rattle.std.specs.Prelude.{◌≡◌, ◌++◌, OnOk, string_bytes};
ghost use Rattle.report.specs.Answers.{answer_text, cut_text, merge_numbers, reply_text, serve_numbers};
ghost use Rattle.workload.specs.Printed.{with_numbers};

use crate::contents::write_content;
use std::alloc::{AllocError, Global};
use vol_base::{Answer, CutBy, MergeCounts, PlainReply, ServeCounts};
use workload::write_numbers;

// Adds the answer's text.
pub fn write_answer(alloc: Global, text: &mut String, answer: &Answer) -> Result<(), AllocError>
    ensures { OnOk result (string_bytes text.new ≡ string_bytes text.old ++ answer_text answer.now) }
{
    match answer {
        Answer::Plain(reply) => write_reply(alloc, text, reply),
        Answer::Fine => text.push_str("ok"),
        Answer::Joined(key) => write_word(text, "joined", &[key.0]),
        Answer::Up => text.push_str("up"),
        Answer::Down => text.push_str("down"),
        Answer::Busy(key) => write_word(text, "busy", &[key.0]),
        Answer::Full => text.push_str("full"),
        Answer::Cut(by) => write_cut(text, by),
        Answer::Logged(n) => write_word(text, "logged", &[u64::from(*n)]),
        Answer::Scanned(n) => write_word(text, "scanned", &[u64::from(*n)]),
        Answer::Merged(counts) => write_word(text, "merged", &merge_numbers(counts)),
        Answer::Served(counts) => write_word(text, "served", &serve_numbers(counts)),
        Answer::Collected(n) => write_word(text, "collected", &[u64::from(*n)]),
        Answer::Free => text.push_str("free"),
        Answer::Seen(n) => write_word(text, "seen", &[u64::from(*n)]),
        Answer::Alive(n) => write_word(text, "alive", &[u64::from(*n)]),
        Answer::Recovered => text.push_str("recovered"),
        Answer::Refused => text.push_str("refused"),
        Answer::NoKeys => text.push_str("nokeys"),
    }
}

fn write_reply(alloc: Global, text: &mut String, reply: &PlainReply) -> Result<(), AllocError>
    ensures { OnOk result (string_bytes text.new ≡ string_bytes text.old ++ reply_text reply.now) }
{
    match reply {
        PlainReply::Done => text.push_str("ok"),
        PlainReply::Holds(block) => write_content(alloc, text, block),
        PlainReply::NoFile => text.push_str("nofile"),
        PlainReply::Exists => text.push_str("exists"),
        PlainReply::Beyond(blocks) => write_word(text, "beyond", &[u64::from(*blocks)]),
        PlainReply::TooLong => text.push_str("toolong"),
    }
}

fn write_cut(text: &mut String, by: &CutBy) -> Result<(), AllocError>
    ensures { OnOk result (string_bytes text.new ≡ string_bytes text.old ++ cut_text by.now) }
{
    match by {
        CutBy::Fenced => text.push_str("cut fenced"),
        CutBy::Fault => text.push_str("cut fault"),
        CutBy::Died => text.push_str("cut died"),
        CutBy::Bad(place) => write_word(text, "cut bad", &[*place]),
    }
}

fn merge_numbers(counts: &MergeCounts) -> [u64; 9]
    ensures { result ≡ merge_numbers counts.now }
{
    [
        u64::from(counts.stale),
        u64::from(counts.unique),
        u64::from(counts.linked),
        u64::from(counts.already),
        u64::from(counts.differs),
        u64::from(counts.gone),
        u64::from(counts.posted),
        u64::from(counts.full),
        u64::from(counts.skipped),
    ]
}

fn serve_numbers(counts: &ServeCounts) -> [u64; 4]
    ensures { result ≡ serve_numbers counts.now }
{
    [
        u64::from(counts.linked),
        u64::from(counts.already),
        u64::from(counts.differs),
        u64::from(counts.gone),
    ]
}

// Adds a word, and the numbers behind it.
pub fn write_word(text: &mut String, word: &str, numbers: &[u64]) -> Result<(), AllocError>
    ensures { OnOk result (string_bytes text.new ≡ string_bytes text.old ++ with_numbers word.now numbers.now) }
{
    text.push_str(word)?;
    write_numbers(text, numbers)
}
