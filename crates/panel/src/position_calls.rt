// The calls on positions of a source.
use crate::command::Command;
use crate::failure::Failure;
use crate::reply::Reply;
use index::global::*;
use index::line::*;
use moves::line::*;
use moves::paragraph::*;
use moves::word::{backward_to_word_start, forward_to_word_start};
use position::bias::*;
use position::character::*;
use position::order::{compare, same};
use position::position::Position;
use range::range::Range;
use rows::refusal::Refusal;
use source::source::Source;
use starts::starts::*;

// The calls on one position, in three by what they answer: lists by name, for which a struct of the three
// parameters would be no plainer.

// The is-calls; nothing where the verb is another.
fn judge<S: Source>(s: &S, verb: &str, p: Position) -> Option<Result<Reply, Refusal>> {
    let answer = match verb {
        "is_document_start" => is_document_start(s, p),
        "is_document_end" => is_document_end(s, p),
        "is_word_start" => is_word_start(s, p),
        "is_line_start" => is_line_start(s, p),
        "is_line_end" => is_line_end(s, p),
        "is_paragraph_start" => is_paragraph_start(s, p),
        "is_paragraph_end" => is_paragraph_end(s, p),
        _ => return None,
    };
    Some(answer.map(Reply::from))
}

// The moves and the biases; nothing where the verb is another.
fn step<S: Source>(s: &S, verb: &str, p: Position) -> Option<Result<Reply, Refusal>> {
    let answer = match verb {
        "biased_to_start" => biased_to_start(s, p),
        "biased_to_end" => biased_to_end(s, p),
        "forward_to_character_start" => forward_to_character_start(s, p),
        "backward_to_character_start" => backward_to_character_start(s, p),
        "forward_to_word_start" => forward_to_word_start(s, p),
        "backward_to_word_start" => backward_to_word_start(s, p),
        "forward_to_line_start" => forward_to_line_start(s, p),
        "forward_to_line_end" => forward_to_line_end(s, p),
        "backward_to_line_start" => backward_to_line_start(s, p),
        "forward_to_paragraph_start" => forward_to_paragraph_start(s, p),
        "forward_to_paragraph_end" => forward_to_paragraph_end(s, p),
        "backward_to_paragraph_start" => backward_to_paragraph_start(s, p),
        _ => return None,
    };
    Some(answer.map(Reply::from))
}

// The indexes of a position; nothing where the verb is another.
fn count<S: Source>(s: &S, verb: &str, p: Position) -> Option<Result<Reply, Refusal>> {
    let answer = match verb {
        "to_line_index" => to_line_index(s, p),
        "to_global_usv_index" => to_global_usv_index(s, p),
        "to_global_utf16_index" => to_global_utf16_index(s, p),
        _ => return None,
    };
    Some(answer.map(Reply::from))
}

// Whether a verb may be a call on one position.
pub fn takes_position(verb: &str) -> bool {
    ["is_", "biased_", "forward_", "backward_", "to_"]
        .iter()
        .any(|prefix| verb.starts_with(*prefix))
}

fn answer_one<S: Source>(s: &S, command: &mut Command<'_>) -> Result<Option<Reply>, Failure> {
    if !takes_position(command.verb) {
        return Ok(None);
    }
    let p = command.position()?;
    command.end()?;
    let verb = command.verb;
    let answer = judge(s, verb, p)
        .or_else(|| step(s, verb, p))
        .or_else(|| count(s, verb, p));
    Ok(answer.transpose()?)
}

// The answer to a call on positions; nothing where the verb is another.
pub fn answer_position<S: Source>(
    s: &S,
    command: &mut Command<'_>,
) -> Result<Option<Reply>, Failure> {
    let reply = match command.verb {
        "document_start" => {
            command.end()?;
            document_start(s).into()
        }
        "document_end" => {
            command.end()?;
            document_end(s).into()
        }
        "compare" => {
            let (p, q) = command.two_positions()?;
            command.end()?;
            compare(s, p, q)?.into()
        }
        "same" => {
            let (p, q) = command.two_positions()?;
            command.end()?;
            same(p, q).into()
        }
        "line_range_from_index" => {
            let n = command.number()?;
            command.end()?;
            let (start, end) = line_range_from_index(s, n)?;
            Reply::Ends(Range { start, end })
        }
        "text_position_from_global_usv_index" => {
            let n = command.number()?;
            command.end()?;
            text_position_from_global_usv_index(s, n)?.into()
        }
        "text_position_from_global_utf16_index" => {
            let n = command.number()?;
            command.end()?;
            text_position_from_global_utf16_index(s, n)?.into()
        }
        _ => return answer_one(s, command),
    };
    Ok(Some(reply))
}
