// What the programs print, as values that are displayed.
#![tactic(auto)]

ghost use Rattle.std.specs.Prelude.{◌≡◌, Some, ℕ, ◌+◌, ◌*◌, ◌≤◌, ◌<◌, ◌++◌, length, IfOk, IfSome, IsOk, OnErr, codes, decimal, [], ◌∷◌};
ghost use Rattle.std.specs.Fmt.{DisplaysOnOk};
ghost use Rattle.relation.specs.Words.{bit_of};
ghost use Rattle.report.specs.Text.{Wrote};
ghost use Rattle.report.specs.Listing.{header_of, names_of, line_of, lines_of, refused_line};

use std::fmt;
use std::fmt::Write;
use table::{Refusal, Table};

// A listing's first line: the counts of classes and edges, and the rounds.
#[derive(Clone, Copy, Debug, PartialEq, Eq)]
pub struct Header {
    pub table: Table,
    pub rounds: usize,
}

impl fmt::Display for Header {
    ghost output = { λ h. Some (header_of h.table.n h.table.m h.rounds) };

    fn fmt<W: fmt::Write>(&self, f: &mut fmt::Formatter<W>) -> fmt::Result {
        let Table { n, m, .. } = self.table;
        writeln!(f, "classes {n} edges {m} rounds {}", self.rounds)
    }
}

impl Header {
    // Writes the header to the front of a lent buffer, and answers how long it is: an error only where it has no room.
    pub fn write_to(self, out: &mut [u8]) -> Result<usize, fmt::Error>
        ensures ok { IfOk result (λ len. Wrote 0 (header_of self.table.n self.table.m self.rounds) out.old out.new len × (len ≤ length out.old)) }
        ensures fits { length (header_of self.table.n self.table.m self.rounds) ≤ length out.old → IsOk result }
        ensures len { length out.new ≡ length out.old }
    {
        let Table { n, m, .. } = self.table;
        let mut page = Page { out, at: 0 };
        page.put_count("classes ", n)?;
        page.put_count(" edges ", m)?;
        page.put_count(" rounds ", self.rounds)?;
        page.put_byte(b'\n')?;
        Ok(page.len())
    }
}

// The lines of a listing: for each class the classes under it, ascending.
#[derive(Clone, Copy, Debug)]
pub struct Lines<'a> {
    n: usize,
    relation: &'a [u64],
    ghost few: { n ≤ 256 },
    ghost long: { 1024 ≤ length relation.now },
}

impl Lines<'_> {
    ghost use Rattle.report.specs.Given.{shown, lines_given};

    // The lines of a table's classes; 9 where the relation is short, 4 where there are too many classes.
    pub fn new(t: Table, relation: &[u64]) -> Result<Lines<'_>, Refusal>
        ensures { shown result ≡ lines_given t.n relation.now }
    {
        if relation.len() < Table::WORDS {
            return Err(Refusal::ShortBuffer);
        }
        if Table::CLASSES < t.n {
            return Err(Refusal::OverLimit);
        }
        Ok(Lines { n: t.n, relation })
    }

    // A space and the number of each class under class b. As a byte, b names no row past the relation's words.
    #[tactic(auto, using(crate::specs::Listing::names_zero, crate::specs::Listing::names_yes, crate::specs::Listing::names_no))]
    fn write_names<W: fmt::Write>(&self, f: &mut fmt::Formatter<W>, b: u8) -> fmt::Result
        ensures { DisplaysOnOk W.write_str_gives f.old result (Some (names_of self.now.n (bit_of self.now.relation.now b))) f.new }
    {
        for a in 0..self.n {
            if relation::holds(self.relation, b as usize, a) {
                write!(f, " {a}")?;
            }
        }
        Ok(())
    }

    // The line of class b.
    #[tactic(auto, unfolding(crate::specs::Listing::line_of))]
    fn write_line<W: fmt::Write>(&self, f: &mut fmt::Formatter<W>, b: u8) -> fmt::Result
        ensures { DisplaysOnOk W.write_str_gives f.old result (Some (line_of self.now.n (bit_of self.now.relation.now) b)) f.new }
    {
        write!(f, "{b}:")?;
        self.write_names(f, b)?;
        f.write_str("\n")
    }

    ghost use Rattle.report.specs.Pages.{HasRoom, Took};

    // What `write_names` writes, put on a page: an error only where it has no room. So is what follows.
    #[tactic(auto, using(crate::specs::Pages::took_none, crate::specs::Listing::names_zero))]
    fn put_names(&self, page: &mut Page<'_>, b: u8) -> fmt::Result
        ensures ok { IsOk result → Took page.old (names_of self.now.n (bit_of self.now.relation.now b)) page.new }
        ensures fits { HasRoom page.old (names_of self.now.n (bit_of self.now.relation.now b)) → IsOk result }
    {
        for a in 0..self.n {
            let is_under = relation::holds(self.relation, b as usize, a);
            if is_under {
                page.put_name(a as u8)?;
            }
        }
        Ok(())
    }

    // The line of class b.
    #[tactic(auto, unfolding(crate::specs::Listing::line_of))]
    fn put_line(&self, page: &mut Page<'_>, b: u8) -> fmt::Result
        ensures ok { IsOk result → Took page.old (line_of self.now.n (bit_of self.now.relation.now) b) page.new }
        ensures fits { HasRoom page.old (line_of self.now.n (bit_of self.now.relation.now) b) → IsOk result }
    {
        page.put_number(b as usize)?;
        page.put_byte(b':')?;
        self.put_names(page, b)?;
        page.put_byte(b'\n')
    }

    // The lines of all classes.
    #[tactic(auto, using(crate::specs::Pages::took_none, crate::specs::Listing::lines_zero))]
    fn put_lines(&self, page: &mut Page<'_>) -> fmt::Result
        ensures ok { IsOk result → Took page.old (lines_of self.now.n (bit_of self.now.relation.now) self.now.n) page.new }
        ensures fits { HasRoom page.old (lines_of self.now.n (bit_of self.now.relation.now) self.now.n) → IsOk result }
    {
        for b in 0..self.n {
            self.put_line(page, b as u8)?;
        }
        Ok(())
    }

    // Writes the lines to the front of a lent buffer, and answers how long they are: an error only where they have no room.
    pub fn write_to(&self, out: &mut [u8]) -> Result<usize, fmt::Error>
        ensures ok { IfOk result (λ len. Wrote 0 (lines_of self.now.n (bit_of self.now.relation.now) self.now.n) out.old out.new len × (len ≤ length out.old)) }
        ensures fits { length (lines_of self.now.n (bit_of self.now.relation.now) self.now.n) ≤ length out.old → IsOk result }
        ensures len { length out.new ≡ length out.old }
    {
        let mut page = Page { out, at: 0 };
        self.put_lines(&mut page)?;
        Ok(page.len())
    }
}

impl fmt::Display for Lines<'_> {
    ghost output = { λ l. Some (lines_of l.n (bit_of l.relation.now) l.n) };

    #[tactic(auto, using(crate::specs::Listing::lines_zero, crate::specs::Listing::lines_more))]
    fn fmt<W: fmt::Write>(&self, f: &mut fmt::Formatter<W>) -> fmt::Result {
        for b in 0..self.n {
            self.write_line(f, b as u8)?;
        }
        Ok(())
    }
}

// The line of a refused file.
#[derive(Clone, Copy, Debug, PartialEq, Eq)]
pub struct Refused(pub Refusal);

impl fmt::Display for Refused {
    ghost output = { λ r. Some (refused_line r.0) };

    fn fmt<W: fmt::Write>(&self, f: &mut fmt::Formatter<W>) -> fmt::Result {
        writeln!(f, "{}", self.0)
    }
}

impl Refused {
    // Writes the line to the front of a lent buffer, and answers how long it is: an error only where it has no room.
    pub fn write_to(self, out: &mut [u8]) -> Result<usize, fmt::Error>
        ensures ok { IfOk result (λ len. Wrote 0 (refused_line self.0) out.old out.new len × (len ≤ length out.old)) }
        ensures fits { length (refused_line self.0) ≤ length out.old → IsOk result }
        ensures len { length out.new ≡ length out.old }
    {
        let mut page = Page { out, at: 0 };
        page.put_count("refused ", self.0.number())?;
        page.put_count(" at ", self.0.place())?;
        page.put_byte(b'\n')?;
        Ok(page.len())
    }
}

// A lent buffer that is written into, one text after another. What displaying into the library's writers of a slice gives, no contract says.
#[derive(Drop)]
struct Page<'a> {
    out: &'a mut [u8],
    at: usize,
    ghost inside: { at ≤ length out.now },
}

impl fmt::Write for Page<'_> {
    ghost write_str_gives = { λ old s new. (new.out.ghost_name ≡ old.out.ghost_name) × Wrote old.at s old.out.now new.out.now new.at };

    // A text that has no room is an error, and leaves the buffer as it was.
    fn write_str(&mut self, s: &str) -> fmt::Result
        ensures ok { IsOk result → (self.new.out.ghost_name ≡ self.old.out.ghost_name) × Wrote self.old.at s.now self.old.out.now self.new.out.now self.new.at }
        ensures fits { self.old.at + length s.now ≤ length self.old.out.now → IsOk result }
        ensures err { OnErr result ((self.new.at ≡ self.old.at) × (self.new.out.now ≡ self.old.out.now)) }
    {
        self.put(s.as_bytes())
    }
}

// Texts put on a page without the library's formatter, of which no contract says when it answers an error: here that is only where there is no room.
impl Page<'_> {
    ghost use Rattle.report.specs.Pages.{HasRoom, Took};

    // How many bytes it holds.
    fn len(&self) -> usize
        ensures { result ≡ self.now.at }
    {
        self.at
    }

    // Bytes that have no room are an error, and leave the buffer as it was.
    fn put(&mut self, bytes: &[u8]) -> fmt::Result
        ensures ok { IsOk result → Took self.old bytes.now self.new }
        ensures fits { HasRoom self.old bytes.now → IsOk result }
        ensures err { OnErr result ((self.new.at ≡ self.old.at) × (self.new.out.now ≡ self.old.out.now)) }
    {
        if self.out.len() - self.at < bytes.len() {
            return Err(fmt::Error);
        }
        let end = self.at + bytes.len();
        self.out[self.at..end].copy_from_slice(bytes);
        self.at = end;
        Ok(())
    }

    // A byte more.
    fn put_byte(&mut self, byte: u8) -> fmt::Result
        ensures ok { IsOk result → Took self.old (byte ∷ []) self.new }
        ensures fits { HasRoom self.old (byte ∷ []) → IsOk result }
    {
        if self.at == self.out.len() {
            return Err(fmt::Error);
        }
        self.out[self.at] = byte;
        self.at += 1;
        Ok(())
    }

    // A number's digits, two at a time.
    fn put_number(&mut self, v: usize) -> fmt::Result
        ensures ok { IsOk result → Took self.old (decimal v) self.new }
        ensures fits { HasRoom self.old (decimal v) → IsOk result }
    {
        if v < 10 {
            return self.put_byte(b'0' + v as u8);
        }
        if 100 <= v {
            self.put_number(v / 100)?;
        }
        self.put(&[b'0' + (v / 10 % 10) as u8, b'0' + (v % 10) as u8])
    }

    // A space and a class's number, in one piece: each piece waits until the page's place is written, and a listing has many of these.
    #[tactic(auto, using(crate::specs::Text::decimal_single, crate::specs::Text::decimal_pair, crate::specs::Text::decimal_three))]
    fn put_name(&mut self, a: u8) -> fmt::Result
        ensures ok { IsOk result → Took self.old (codes " " ++ decimal a) self.new }
        ensures fits { HasRoom self.old (codes " " ++ decimal a) → IsOk result }
    {
        let tens = b'0' + a / 10 % 10;
        let ones = b'0' + a % 10;
        if a < 10 {
            return self.put(&[b' ', ones]);
        }
        if a < 100 {
            return self.put(&[b' ', tens, ones]);
        }
        self.put(&[b' ', b'0' + a / 100, tens, ones])
    }

    // A text and a number.
    fn put_count(&mut self, text: &str, v: usize) -> fmt::Result
        ensures ok { IsOk result → Took self.old (text.now ++ decimal v) self.new }
        ensures fits { HasRoom self.old (text.now ++ decimal v) → IsOk result }
    {
        self.put(text.as_bytes())?;
        self.put_number(v)
    }
}

// Writes a value's text into a lent buffer, from its front; answers how long it is. Where there is no room it is an error, and then only the buffer's
// length is promised.
pub fn write_into<D: fmt::Display + Drop>(out: &mut [u8], value: D) -> Result<usize, fmt::Error>
    ensures ok { IfOk result (λ len. IfSome (D.output value) (λ text. Wrote 0 text out.old out.new len × (len ≤ length out.old))) }
    ensures len { length out.new ≡ length out.old }
{
    let mut page = Page { out, at: 0 };
    page.write(value)?;
    Ok(page.at)
}

#[cfg(test)]
mod tests;
