//! JSON text that grows by one token after another.
ghost use Rattle.std.specs.Prelude.{◌≡◌, ◌∷◌, ◌++◌, [], OnOk, decimal};
ghost use Rattle.std.specs.Str.{IsUtf8};
ghost use Rattle.json.specs.Lex.{tokens};
ghost use Rattle.json.specs.Print.{print};
ghost use Rattle.json_replies.specs.Shapes.{Appends};
ghost use Rattle.json.specs.Token.{begin_array, begin_object, boolean, end_array, end_object, key, number, string};

use disk_trait::{Memory, Text};
use json::{Reader, Scratch, Token, Writer};
use std::alloc::Global;
use std::marker::Model;
use std::str;

/// Compact text of JSON (RFC 8259). Contracts see the list of its tokens; what a call leaves after
/// an error is of no use.
#[derive(Drop)]
pub(crate) struct JsonText {
    writer: Writer,
}

impl Model for JsonText {
    ghost use Rattle.std.specs.Prelude.{◌≡◌, [], List};
    ghost use Rattle.json.specs.Token.{Token as SpecToken, tokens_code};

    ghost Value = { List SpecToken };

    ghost coded = { tokens_code };

    ghost view = { λ t. t.writer.tokens };

    ghost invariant = { λ t. t.writer.before ≡ [] };
}

impl JsonText {
    pub(crate) fn new(alloc: Global) -> JsonText
        ensures { result ≡ [] }
    {
        JsonText {
            writer: Writer::new(Vec::new(alloc)),
        }
    }

    pub(crate) fn into_text(self) -> Text
        ensures text { result ≡ print self }
        ensures reads_back { tokens (print self) ≡ self }
        ensures utf8 { IsUtf8 (print self) }
    {
        let JsonText { writer } = self;
        Text::from_vec(writer.into_inner())
    }

    pub(crate) fn begin_object(&mut self) -> Result<(), Memory>
        ensures { OnOk result (Appends self.old self.new (begin_object ∷ [])) }
    {
        self.writer.begin_object()?;
        Ok(())
    }

    pub(crate) fn end_object(&mut self) -> Result<(), Memory>
        ensures { OnOk result (Appends self.old self.new (end_object ∷ [])) }
    {
        self.writer.end_object()?;
        Ok(())
    }

    pub(crate) fn begin_array(&mut self) -> Result<(), Memory>
        ensures { OnOk result (Appends self.old self.new (begin_array ∷ [])) }
    {
        self.writer.begin_array()?;
        Ok(())
    }

    pub(crate) fn end_array(&mut self) -> Result<(), Memory>
        ensures { OnOk result (Appends self.old self.new (end_array ∷ [])) }
    {
        self.writer.end_array()?;
        Ok(())
    }

    /// The name of a member, whose value comes next.
    pub(crate) fn key(&mut self, name: &str) -> Result<(), Memory>
        ensures { OnOk result (Appends self.old self.new (key name.now ∷ [])) }
    {
        self.writer.key(name)?;
        Ok(())
    }

    /// The same of a name in UTF-8, as every name of a tag is.
    pub(crate) fn name(&mut self, name: &[u8]) -> Result<(), Memory>
        ensures { OnOk result (Appends self.old self.new (key name.now ∷ [])) }
    {
        match str::from_utf8(name) {
            Ok(name) => self.key(name),
            Err(_) => Err(Memory),
        }
    }

    pub(crate) fn string(&mut self, text: &str) -> Result<(), Memory>
        ensures { OnOk result (Appends self.old self.new (string text.now ∷ [])) }
    {
        self.writer.string(text)?;
        Ok(())
    }

    /// A text in UTF-8. Every text of a reply is; another one would be answered as want of memory.
    pub(crate) fn text(&mut self, text: &[u8]) -> Result<(), Memory>
        ensures { OnOk result (Appends self.old self.new (string text.now ∷ [])) }
    {
        match str::from_utf8(text) {
            Ok(text) => self.string(text),
            Err(_) => Err(Memory),
        }
    }

    /// A whole number, in decimal.
    pub(crate) fn number(&mut self, n: u64) -> Result<(), Memory>
        ensures { OnOk result (Appends self.old self.new (number (decimal n) ∷ [])) }
    {
        self.writer.u64(n)?;
        Ok(())
    }

    pub(crate) fn truth(&mut self, truth: bool) -> Result<(), Memory>
        ensures { OnOk result (Appends self.old self.new (boolean truth ∷ [])) }
    {
        self.writer.boolean(truth)?;
        Ok(())
    }

    /// A text that is JSON itself, token by token. Where it is none it would be answered as want of
    /// memory.
    pub(crate) fn kept(&mut self, alloc: Global, text: &[u8]) -> Result<(), Memory>
        ensures { OnOk result (Appends self.old self.new (tokens text.now)) }
    {
        match str::from_utf8(text) {
            Ok(text) => {
                let mut scratch = Scratch::new(alloc);
                let mut reader = Reader::new(text, &mut scratch)?;
                copy_tokens(&mut reader, &mut self.writer)
            }
            Err(_) => Err(Memory),
        }
    }
}

/// Writes the tokens that are left to read.
fn copy_tokens(from: &mut Reader, to: &mut Writer) -> Result<(), Memory>
    ensures tokens { OnOk result (to.new.tokens ≡ to.old.tokens ++ from.old) }
    ensures before { to.new.before ≡ to.old.before }
{
    while let Some(token) = from.next() {
        if let Token::Bad = token {
            return Err(Memory);
        }
        to.token(token)?;
    }
    Ok(())
}
