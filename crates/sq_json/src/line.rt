//! A line, read as one value.
ghost use Rattle.std.specs.Prelude.{◌≡◌, ◌<◌, map, length, Some, None, Err, IfOk, IsUtf8, List};
ghost use Rattle.json.specs.Tape.{node_token};
ghost use Rattle.json.specs.Token.{Token};
ghost use Rattle.serde_json.specs.Read.{read};
ghost use Rattle.sq_json.specs.View.{view, HasData};
ghost use Rattle.sq_json.specs.inside.Fits.{fits};

use crate::number::number_of;
use crate::value::Value;
use json::{Node, Scratch, Tape};
use std::alloc::Global;
use std::marker::Model;

/// How deep arrays and objects may nest.
const MAX_DEPTH: usize = 127;

/// Why a line was not read.
#[derive(Clone, Copy, Debug, PartialEq, Eq)]
pub enum Fault {
    /// It is no value in JSON.
    Invalid,
    /// Memory was refused, or the line is one that no tape holds.
    Memory,
}

/// A line that was read. A clause sees its tokens, whose `view` is its data.
#[derive(Drop)]
pub struct Line<'a> {
    tape: Tape<'a>,
}

impl<'a> Model for Line<'a> {
    ghost Value = { List Token };

    ghost view = { λ a. a.tape };

    ghost invariant = { λ a. HasData a.tape };
}

// Whether each number is in range, and no value nests deeper than a line may.
fn are_read(nodes: &[Node<'_>]) -> bool
    ensures { result ≡ fits MAX_DEPTH (map node_token nodes.now) }
{
    let mut depth_left = MAX_DEPTH;
    for node in nodes {
        match *node {
            Node::Object(_) | Node::Array(_) => {
                if depth_left == 0 {
                    return false;
                }
                depth_left -= 1;
            }
            Node::EndObject | Node::EndArray => depth_left = depth_left.saturating_add(1),
            Node::Number(text) => {
                if number_of(text).is_none() {
                    return false;
                }
            }
            _ => {}
        }
    }
    true
}

impl<'a> Line<'a> {
    /// The value that a line is. It is Invalid where its bytes are not UTF-8, or no value in JSON that nests at most 127 deep
    /// and has each number in range. What it asks memory for is its tape; the scratch keeps its own from line to line.
    pub fn parse(alloc: Global, scratch: &'a mut Scratch, line: &'a [u8]) -> Result<Line<'a>, Fault>
        ensures ok { IfOk result (λ l. IsUtf8 line.now × (read line.now ≡ Some (view l))) }
        ensures invalid { result ≡ Err Fault.Invalid → IsUtf8 line.now → read line.now ≡ None }
        ensures memory { result ≡ Err Fault.Memory → 0 < length line.now }
    {
        if line.is_empty() {
            return Err(Fault::Invalid);
        }
        let Ok(text) = simdutf8::basic::from_utf8(line) else {
            return Err(Fault::Invalid);
        };
        Line::of_text(alloc, scratch, text)
    }

    /// The value that a text is, in the same way.
    pub fn of_text(
        alloc: Global,
        scratch: &'a mut Scratch,
        text: &'a str,
    ) -> Result<Line<'a>, Fault>
        ensures ok { IfOk result (λ l. read text.now ≡ Some (view l)) }
        ensures invalid { result ≡ Err Fault.Invalid → read text.now ≡ None }
    {
        match Tape::parse(text, scratch, Vec::new(alloc)) {
            Ok(tape) => {
                if are_read(tape.nodes()) {
                    Ok(Line { tape })
                } else {
                    Err(Fault::Invalid)
                }
            }
            Err(json::Error::Invalid) => Err(Fault::Invalid),
            Err(_) => Err(Fault::Memory),
        }
    }

    /// The value.
    pub fn root(&self) -> Value<'_, 'a>
        ensures { result ≡ self.now }
    {
        Value::of(self.tape.root())
    }
}
