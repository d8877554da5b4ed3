ghost use Rattle.std.specs.Prelude.{◌≡◌, ◌≢◌, [], MatchResult, Ok, Err, IsTrue, codes, true};
ghost use Rattle.xml_tokens.specs.Characters.{begins};
ghost use Rattle.atom_values.specs.XmlText.{IsXmlText};
ghost use Rattle.xml_tokens.specs.declared.token.Context.TheVariants.{Start};
ghost use Rattle.xml_tokens.specs.Reading.{Reads, a_comment, written_section, written_end_tag};
ghost use Rattle.xml_tokens.specs.Reading.{IsForeignRead, an_instruction, begins_declaration, instruction_end, ReadsTagToken, ReadsBlank, ReadsSaid, IsFitPlace, IsInContent, ReadsToken, Starts, foreign_declaration};

use crate::cursor::{Cursor, Lapse};
use crate::declaration::Encoding;
use crate::tag::Tag;
use atom_values::is_space;
use std::alloc::Global;

/// A token of a document.
#[derive(Drop)]
pub(crate) enum Token<'a> {
    Declaration(Encoding),
    /// White space outside the root, a comment or an instruction.
    Silent,
    /// Characters of content, as they are written. Another token or the end of the text follows.
    Characters(&'a [u8]),
    /// A reference in content, by its character.
    Reference(char),
    /// The characters of a CDATA section, as they are written.
    Section(&'a [u8]),
    Tag(Tag<'a>),
    /// The end tag of the innermost open element.
    EndTag,
}

/// Where a token is read.
#[derive(Clone, Copy)]
pub(crate) enum Context<'a> {
    /// At the beginning of the text, where a declaration is allowed.
    Start,
    /// After the start, and outside the root.
    Outside,
    /// In the content of an element with this name, as it is written.
    Inside(&'a [u8]),
}

/// Whether the place is in the content of an element.
fn is_content(place: Context<'_>) -> bool
    ensures some { result ≡ true → IsInContent place.entry }
    ensures none { IsInContent place.entry → result ≡ true }
{
    match place {
        Context::Inside(_) => true,
        Context::Start | Context::Outside => false,
    }
}

/// Whether the place is the beginning of the text.
fn is_start(place: Context<'_>) -> bool
    ensures some { result ≡ true → place.entry ≡ Start }
    ensures none { place.entry ≡ Start → result ≡ true }
{
    match place {
        Context::Start => true,
        Context::Inside(_) | Context::Outside => false,
    }
}

impl<'a> Cursor<'a> {
    /// Reads the next token. The text isn't at its end.
    pub(crate) fn token(&mut self, alloc: Global, place: Context<'a>) -> Result<Token<'a>, Lapse>
        requires text { IsXmlText self.old.rest.now }
        requires some { self.old.rest.now ≢ [] }
        requires place { IsFitPlace place }
        ensures read { ReadsToken place.entry self.old.rest.now result self.new.rest.now }
        // A declaration of another encoding is told from one that is allowed, unless memory runs out.
        ensures foreign { place.entry ≡ Start → Starts foreign_declaration self.old.rest.now
            → IsForeignRead result }
    {
        if !self.at(b"<") {
            return match place {
                Context::Inside(_) => self.said(),
                _ => self.blank(),
            };
        }
        match self.rest.get(1) {
            None => Err(Lapse::Cut),
            Some(b'!') => self.marked(place),
            Some(b'?') => self.instructed(place),
            Some(b'/') => self.end_tag(place),
            Some(_) => self.tag_token(alloc),
        }
    }

    /// Reads a tag. One that the text cuts takes all that is left.
    fn tag_token(&mut self, alloc: Global) -> Result<Token<'a>, Lapse>
        requires { IsTrue (begins (codes "<") self.old.rest.now) }
        ensures { ReadsTagToken self.old.rest.now result self.new.rest.now }
    {
        let tag = self.tag(alloc)?;
        if tag.is_cut() {
            self.rest = b"";
        }
        Ok(Token::Tag(tag))
    }

    /// Reads white space outside the root.
    fn blank(&mut self) -> Result<Token<'a>, Lapse>
        ensures { ReadsBlank self.old.rest.now result self.new.rest.now }
    {
        if self.spaces() {
            Ok(Token::Silent)
        } else {
            Err(Lapse::Broken)
        }
    }

    /// Reads a reference, or characters up to the next token (XML 1.0, production 14). A `]` is read alone, since
    /// content has no `]]>`.
    fn said(&mut self) -> Result<Token<'a>, Lapse>
        ensures { ReadsSaid self.old.rest.now result self.new.rest.now }
    {
        if self.at(b"&") {
            return Ok(Token::Reference(self.reference()?));
        }
        if self.at(b"]]>") {
            return Err(Lapse::Broken);
        }
        if self.at(b"]") {
            return Ok(Token::Characters(self.take(1)));
        }
        Ok(Token::Characters(self.plain()))
    }

    /// Reads a token that begins with `<!`: a comment, or in content a CDATA section.
    fn marked(&mut self, place: Context<'_>) -> Result<Token<'a>, Lapse>
        ensures { IsXmlText self.old.rest.now → IsTrue (begins (codes "<!") self.old.rest.now)
            → ReadsToken place.entry self.old.rest.now result self.new.rest.now }
    {
        if is_content(place) && self.at(b"<![") {
            return Ok(Token::Section(self.section()?));
        }
        self.comment()?;
        Ok(Token::Silent)
    }

    /// Reads a CDATA section (XML 1.0, production 18), and returns its characters as they are written.
    fn section(&mut self) -> Result<&'a [u8], Lapse>
        ensures { MatchResult result
            (λ inside. Reads written_section self.old.rest.now (Ok inside.now) self.new.rest.now)
            (λ lapse. Reads written_section self.old.rest.now (Err lapse) self.new.rest.now) }
    {
        self.literal(b"<![CDATA[")?;
        self.up_to(b"]]>")
    }

    /// Reads a comment (XML 1.0, production 15).
    fn comment(&mut self) -> Result<(), Lapse>
        ensures { Reads a_comment self.old.rest.now result self.new.rest.now }
    {
        self.literal(b"<!--")?;
        self.up_to(b"--")?;
        self.literal(b">")
    }

    /// Reads a token that begins with `<?`: an instruction, or at the start a declaration (XML 1.0, productions 16
    /// and 23).
    fn instructed(&mut self, place: Context<'_>) -> Result<Token<'a>, Lapse>
        ensures read { IsXmlText self.old.rest.now → IsTrue (begins (codes "<?") self.old.rest.now)
            → ReadsToken place.entry self.old.rest.now result self.new.rest.now }
        ensures foreign { place.entry ≡ Start → Starts foreign_declaration self.old.rest.now
            → IsForeignRead result }
    {
        if is_start(place) && self.at_declaration() {
            return Ok(Token::Declaration(self.declaration()?));
        }
        self.instruction()?;
        Ok(Token::Silent)
    }

    /// Whether a declaration begins here, not an instruction whose name begins with `xml`.
    fn at_declaration(&self) -> bool
        ensures { result ≡ begins_declaration self.now.rest.now }
    {
        match self.rest.strip_prefix(b"<?xml") {
            Some(rest) => match rest.first() {
                Some(byte) => is_space(*byte),
                None => false,
            },
            None => false,
        }
    }

    /// Reads an instruction (XML 1.0, production 16).
    fn instruction(&mut self) -> Result<(), Lapse>
        ensures { Reads an_instruction self.old.rest.now result self.new.rest.now }
    {
        self.literal(b"<?")?;
        let name = self.name()?;
        if self.rest.is_empty() {
            return Err(Lapse::Cut);
        }
        if name.eq_ignore_ascii_case(b"xml") {
            return Err(Lapse::Broken);
        }
        self.instruction_end()
    }

    /// Reads the rest of an instruction after its name.
    fn instruction_end(&mut self) -> Result<(), Lapse>
        ensures { self.old.rest.now ≢ [] → Reads instruction_end self.old.rest.now result self.new.rest.now }
    {
        if self.spaces() {
            self.up_to(b"?>")?;
            return Ok(());
        }
        self.literal(b"?>")
    }

    /// Reads the end tag of the innermost open element.
    fn end_tag(&mut self, place: Context<'_>) -> Result<Token<'a>, Lapse>
        ensures { IsXmlText self.old.rest.now → IsFitPlace place.entry
            → IsTrue (begins (codes "</") self.old.rest.now)
            → ReadsToken place.entry self.old.rest.now result self.new.rest.now }
    {
        let Context::Inside(name) = place else {
            return Err(Lapse::Broken);
        };
        self.closing(name)?;
        Ok(Token::EndTag)
    }

    /// Reads the end tag of an element with this name, as it is written (XML 1.0, production 42).
    fn closing(&mut self, name: &[u8]) -> Result<(), Lapse>
        ensures { Reads (written_end_tag name.now) self.old.rest.now result self.new.rest.now }
    {
        self.literal(b"</")?;
        self.literal(name)?;
        self.spaces();
        self.literal(b">")
    }
}
