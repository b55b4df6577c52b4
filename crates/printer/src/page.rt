//! Lays out tokens in lines, one after another.

ghost use Rattle.std.specs.Prelude.{◌≡◌, ◌+◌, ◌<◌, ◌^◌, [], ◌++◌, ◌≤◌, OnOk, OnErr, string_bytes, string_len};
ghost use Rattle.base.specs.Texts.{KeepsText};
ghost use Rattle.printer.specs.Layout.{Fixed, KeepsPage, Named, Numeral, Page, braces_after, gap, indent, lead_of, line_end_after, place_after, put};
ghost use Rattle.printer.specs.declared.page.NextPlace.TheVariants as places;

use itoa::Buffer;
use std::alloc::{AllocError as NoMemory, Global};
use std::marker::Model;
use syntax::Terminal;

/// The place of the next token, as far as the token before it matters.
#[derive(Clone, Copy)]
pub enum NextPlace {
    LineStart,
    /// Behind a token that no blank follows.
    Joined,
    /// Behind what a `(` follows without a blank.
    Callee,
    Spaced,
}

/// How a token joins what is before it.
#[derive(Clone, Copy)]
pub enum Lead {
    CloseBrace,
    OpenParen,
    /// It has no blank before it.
    Joined,
    Spaced,
}

/// The text written so far, the number of open braces, and the place of the next token.
#[derive(Drop)]
pub struct Printer {
    text: String,
    depth: usize,
    place: NextPlace,
}

impl Model for Printer {
    ghost use Rattle.std.specs.Prelude.{◌≤◌, string_bytes, string_len};
    ghost use Rattle.printer.specs.Layout.{Page};

    ghost Value = { Page };

    ghost view = { λ p. record { text = string_bytes p.text; depth = p.depth; place = p.place } };

    ghost invariant = { λ p. p.depth ≤ string_len p.text };
}

impl Printer {
    /// An empty page, at the start of its first line.
    pub fn new(alloc: Global) -> Self
        ensures { result ≡ record { text = []; depth = 0; place = places.LineStart } }
    {
        Printer {
            text: String::new(alloc),
            depth: 0,
            place: NextPlace::LineStart,
        }
    }

    /// The text that was written.
    pub fn into_text(self) -> String
        ensures { string_bytes result ≡ self.text }
    {
        self.text
    }

    /// Writes a terminal.
    #[tactic(auto, unfolding(crate::specs::Layout::put), using(crate::proofs::Kept::kept_page, base::proofs::Texts::kept_itself, base::proofs::Texts::kept_more))]
    pub fn terminal(&mut self, terminal: Terminal) -> Result<(), NoMemory>
        ensures put { OnOk result (self.new ≡ put self.old (Fixed terminal)) }
        ensures kept { OnErr result (KeepsPage self.old self.new) }
    {
        write_gap(&mut self.text, self.place, self.depth, lead_to(terminal))?;
        self.text.push_str(terminal.text())?;
        write_line_end(&mut self.text, terminal)?;
        self.depth = depth_behind(self.depth, terminal);
        self.place = place_behind(terminal);
        Ok(())
    }

    /// Writes a name.
    #[tactic(auto, unfolding(crate::specs::Layout::put), using(crate::proofs::Kept::kept_page, base::proofs::Texts::kept_itself, base::proofs::Texts::kept_more))]
    pub fn name(&mut self, name: &str) -> Result<(), NoMemory>
        ensures put { OnOk result (self.new ≡ put self.old (Named name.now)) }
        ensures kept { OnErr result (KeepsPage self.old self.new) }
    {
        write_gap(&mut self.text, self.place, self.depth, Lead::Spaced)?;
        self.text.push_str(name)?;
        self.place = NextPlace::Callee;
        Ok(())
    }

    /// Writes a number.
    #[tactic(auto, unfolding(crate::specs::Layout::put), using(crate::proofs::Kept::kept_page, base::proofs::Texts::kept_itself, base::proofs::Texts::kept_more))]
    pub fn number(&mut self, number: u32) -> Result<(), NoMemory>
        ensures put { OnOk result (self.new ≡ put self.old (Numeral number)) }
        ensures kept { OnErr result (KeepsPage self.old self.new) }
    {
        let mut digits = Buffer::new();
        write_gap(&mut self.text, self.place, self.depth, Lead::Spaced)?;
        self.text.push_str(digits.format(number))?;
        self.place = NextPlace::Spaced;
        Ok(())
    }
}

#[tactic(auto, using(crate::proofs::Indents::indent_more, base::proofs::Texts::kept_itself, base::proofs::Texts::kept_more))]
fn write_indent(text: &mut String, depth: usize) -> Result<(), NoMemory>
    ensures text { OnOk result (string_bytes text.new ≡ string_bytes text.old ++ indent depth) }
    ensures kept { OnErr result (KeepsText (string_bytes text.old) (string_bytes text.new)) }
    ensures longer { string_len text.old ≤ string_len text.new }
{
    for _level in 0..depth {
        text.push_str("    ")?;
    }
    Ok(())
}

#[tactic(auto, using(base::proofs::Texts::kept_itself))]
fn write_gap(text: &mut String, place: NextPlace, depth: usize, lead: Lead) -> Result<(), NoMemory>
    ensures text { OnOk result (string_bytes text.new ≡ string_bytes text.old ++ gap place depth lead) }
    ensures kept { OnErr result (KeepsText (string_bytes text.old) (string_bytes text.new)) }
    ensures longer { string_len text.old ≤ string_len text.new }
{
    match (place, lead) {
        (NextPlace::LineStart, Lead::CloseBrace) => write_indent(text, depth.saturating_sub(1)),
        (NextPlace::LineStart, _) => write_indent(text, depth),
        (NextPlace::Joined, _) | (_, Lead::Joined) | (NextPlace::Callee, Lead::OpenParen) => Ok(()),
        _ => text.push_str(" "),
    }
}

#[tactic(auto, using(base::proofs::Texts::kept_itself))]
fn write_line_end(text: &mut String, terminal: Terminal) -> Result<(), NoMemory>
    ensures text { OnOk result (string_bytes text.new ≡ string_bytes text.old ++ line_end_after (Fixed terminal)) }
    ensures kept { OnErr result (KeepsText (string_bytes text.old) (string_bytes text.new)) }
    ensures longer { string_len text.old ≤ string_len text.new }
{
    match terminal {
        Terminal::OpenBrace | Terminal::CloseBrace | Terminal::Semicolon => text.push_str("\n"),
        _ => Ok(()),
    }
}

fn lead_to(terminal: Terminal) -> Lead
    ensures { result ≡ lead_of (Fixed terminal) }
{
    match terminal {
        Terminal::Semicolon | Terminal::Comma | Terminal::CloseParen | Terminal::Dot =>
            Lead::Joined,
        Terminal::OpenParen => Lead::OpenParen,
        Terminal::CloseBrace => Lead::CloseBrace,
        _ => Lead::Spaced,
    }
}

fn place_behind(terminal: Terminal) -> NextPlace
    ensures { result ≡ place_after (Fixed terminal) }
{
    match terminal {
        Terminal::OpenBrace | Terminal::CloseBrace | Terminal::Semicolon => NextPlace::LineStart,
        Terminal::OpenParen | Terminal::Dot | Terminal::Bang => NextPlace::Joined,
        Terminal::Thread | Terminal::Out | Terminal::Println | Terminal::Start => NextPlace::Callee,
        _ => NextPlace::Spaced,
    }
}

fn depth_behind(depth: usize, terminal: Terminal) -> usize
    requires { depth + 1 < 2 ^ 64 }
    ensures value { result ≡ braces_after depth (Fixed terminal) }
    ensures most { result ≤ depth + 1 }
{
    match terminal {
        Terminal::OpenBrace => depth + 1,
        Terminal::CloseBrace => depth.saturating_sub(1),
        _ => depth,
    }
}
