//! JSON as it is written.
ghost use Rattle.std.specs.Prelude.{◌≡◌, ◌∷◌, [], decimal, IfOk};
ghost use Rattle.json.specs.Print.{print};
ghost use Rattle.json.specs.Token.{key, string, number, boolean, begin_object, end_object, begin_array, end_array};
ghost use Rattle.sq_replies.specs.Replies.{if_asked};
ghost use Rattle.sq_replies.specs.inside.Told.{Adds, text_tokens};

use std::alloc::{AllocError, Global};
use std::marker::Model;

/// How many bytes of memory are got before a text is written; it grows.
const CAPACITY: usize = 256;

/// JSON that is written. A clause sees its tokens.
#[derive(Drop)]
pub(crate) struct Writer {
    alloc: Global,
    inside: json::Writer,
}

impl Model for Writer {
    ghost use Rattle.std.specs.Prelude.{List};
    ghost use Rattle.json.specs.Token.{Token, tokens_code};

    ghost Value = { List Token };

    ghost coded = { tokens_code };

    ghost use Rattle.std.specs.Prelude.{◌≡◌, []};

    ghost view = { λ a. a.inside.tokens };

    ghost invariant = { λ a. a.inside.before ≡ [] };
}

impl Writer {
    pub fn new(alloc: Global) -> Result<Writer, AllocError>
        ensures { IfOk result (λ out. out ≡ []) }
    {
        let inside = json::Writer::new(Vec::with_capacity(alloc, CAPACITY)?);
        Ok(Writer { alloc, inside })
    }

    /// Where memory is got.
    pub fn alloc(&self) -> Global {
        self.alloc
    }

    /// The text that was written.
    pub fn into_bytes(self) -> Vec<u8>
        ensures { result.items ≡ print self }
    {
        self.inside.into_inner()
    }

    pub fn begin_object(&mut self) -> Result<(), AllocError>
        ensures { Adds result self.old self.new (begin_object ∷ []) }
    {
        self.inside.begin_object()
    }

    pub fn end_object(&mut self) -> Result<(), AllocError>
        ensures { Adds result self.old self.new (end_object ∷ []) }
    {
        self.inside.end_object()
    }

    fn begin_array(&mut self) -> Result<(), AllocError>
        ensures { Adds result self.old self.new (begin_array ∷ []) }
    {
        self.inside.begin_array()
    }

    fn end_array(&mut self) -> Result<(), AllocError>
        ensures { Adds result self.old self.new (end_array ∷ []) }
    {
        self.inside.end_array()
    }

    fn key(&mut self, name: &str) -> Result<(), AllocError>
        ensures { Adds result self.old self.new (key name.now ∷ []) }
    {
        self.inside.key(name)
    }

    pub fn string(&mut self, text: &str) -> Result<(), AllocError>
        ensures { Adds result self.old self.new (string text.now ∷ []) }
    {
        self.inside.string(text)
    }

    fn quoted_u64(&mut self, count: u64) -> Result<(), AllocError>
        ensures { Adds result self.old self.new (string (decimal count) ∷ []) }
    {
        self.inside.quoted_u64(count)
    }

    fn u64(&mut self, count: u64) -> Result<(), AllocError>
        ensures { Adds result self.old self.new (number (decimal count) ∷ []) }
    {
        self.inside.u64(count)
    }

    fn boolean(&mut self, flag: bool) -> Result<(), AllocError>
        ensures { Adds result self.old self.new (boolean flag ∷ []) }
    {
        self.inside.boolean(flag)
    }
}

/// A member whose value is a text.
pub(crate) fn write_text(out: &mut Writer, name: &str, text: &str) -> Result<(), AllocError>
    ensures { Adds result out.old out.new (key name.now ∷ string text.now ∷ []) }
{
    out.key(name)?;
    out.string(text)
}

/// What an object begins with whose first member is a text.
pub(crate) fn begin_text(out: &mut Writer, name: &str, text: &str) -> Result<(), AllocError>
    ensures { Adds result out.old out.new (begin_object ∷ key name.now ∷ string text.now ∷ []) }
{
    out.begin_object()?;
    write_text(out, name, text)
}

/// What an object ends with whose last member is a text.
pub(crate) fn end_text(out: &mut Writer, name: &str, text: &str) -> Result<(), AllocError>
    ensures { Adds result out.old out.new (key name.now ∷ string text.now ∷ end_object ∷ []) }
{
    write_text(out, name, text)?;
    out.end_object()
}

/// An object whose only member is a text.
pub(crate) fn write_only_text(out: &mut Writer, name: &str, text: &str) -> Result<(), AllocError>
    ensures { Adds result out.old out.new (begin_object ∷ key name.now ∷ string text.now ∷ end_object ∷ []) }
{
    out.begin_object()?;
    end_text(out, name, text)
}

/// A number as a text, where it is asked for.
pub(crate) fn write_count_if(
    out: &mut Writer,
    name: &str,
    asked: bool,
    count: u64,
) -> Result<(), AllocError>
    ensures { Adds result out.old out.new (text_tokens name.now (if_asked asked (decimal count))) }
{
    if asked {
        out.key(name)?;
        return out.quoted_u64(count);
    }
    Ok(())
}

/// A member whose value is a number.
pub(crate) fn write_number(out: &mut Writer, name: &str, count: u64) -> Result<(), AllocError>
    ensures { Adds result out.old out.new (key name.now ∷ number (decimal count) ∷ []) }
{
    out.key(name)?;
    out.u64(count)
}

/// An object whose only member is a number.
pub(crate) fn write_only_number(out: &mut Writer, name: &str, count: u64) -> Result<(), AllocError>
    ensures { Adds result out.old out.new (begin_object ∷ key name.now ∷ number (decimal count) ∷ end_object ∷ []) }
{
    out.begin_object()?;
    write_number(out, name, count)?;
    out.end_object()
}

/// What an object ends with whose last member is true or false.
pub(crate) fn end_flag(out: &mut Writer, name: &str, flag: bool) -> Result<(), AllocError>
    ensures { Adds result out.old out.new (key name.now ∷ boolean flag ∷ end_object ∷ []) }
{
    out.key(name)?;
    out.boolean(flag)?;
    out.end_object()
}

/// What a member begins with that is an object.
pub(crate) fn begin_member(out: &mut Writer, name: &str) -> Result<(), AllocError>
    ensures { Adds result out.old out.new (key name.now ∷ begin_object ∷ []) }
{
    out.key(name)?;
    out.begin_object()
}

/// What an object begins with whose first member is a list.
pub(crate) fn begin_list(out: &mut Writer, name: &str) -> Result<(), AllocError>
    ensures { Adds result out.old out.new (begin_object ∷ key name.now ∷ begin_array ∷ []) }
{
    out.begin_object()?;
    out.key(name)?;
    out.begin_array()
}

/// What stands between a list and the next.
pub(crate) fn next_list(out: &mut Writer, name: &str) -> Result<(), AllocError>
    ensures { Adds result out.old out.new (end_array ∷ key name.now ∷ begin_array ∷ []) }
{
    out.end_array()?;
    out.key(name)?;
    out.begin_array()
}

/// What it ends with after its last list.
pub(crate) fn end_list(out: &mut Writer) -> Result<(), AllocError>
    ensures { Adds result out.old out.new (end_array ∷ end_object ∷ []) }
{
    out.end_array()?;
    out.end_object()
}
