use crate::head::{TITLE_LIMIT, WINDOW_LIMIT};
use atom_values::{AtomText, Copies, NoMemory};
use std::alloc::Global;
use std::marker::Model;

/// A text that a feed's title or author may be: it has at most `TITLE_LIMIT` bytes.
#[derive(Debug, Drop)]
pub struct ShortText {
    text: AtomText,
}

impl Model for ShortText {
    ghost use Rattle.std.specs.Prelude.{ℕ, List, ◌≤◌, length};
    ghost use Rattle.atom_values.specs.XmlText.{IsAtomText};
    ghost use Rattle.member_rules.specs.Head.{title_limit};

    ghost Value = { List ℕ };

    ghost view = { λ s. s.text };

    ghost invariant = { λ s. IsAtomText s.text × (length s.text ≤ title_limit) };
}

impl ShortText {
    ghost use Rattle.std.specs.Prelude.{◌≡◌, ◌<◌, length, MatchOption};
    ghost use Rattle.member_rules.specs.Head.{title_limit};
    ghost use Rattle.member_rules.specs.Setting.{IsTitle};

    /// The text, or `None` if it has more than `TITLE_LIMIT` bytes.
    pub fn of(text: AtomText) -> Option<ShortText>
        ensures { MatchOption result (title_limit < length text) (λ short. (short ≡ text) × IsTitle short) }
    {
        if text.bytes().len() > TITLE_LIMIT {
            return None;
        }
        Some(ShortText { text })
    }

    /// The text itself.
    pub fn text(&self) -> &AtomText
        ensures text { result.now ≡ self.now }
        ensures rules { IsTitle self.now }
    {
        &self.text
    }

    /// The text itself.
    pub fn into_text(self) -> AtomText
        ensures text { result ≡ self }
        ensures rules { IsTitle self }
    {
        self.text
    }
}

impl Copies for ShortText {
    ghost use Rattle.member_rules.specs.Setting.{IsTitle};

    ghost rules = { IsTitle };

    fn copy(&self, alloc: Global) -> Result<ShortText, NoMemory> {
        Ok(ShortText {
            text: self.text.copy(alloc)?,
        })
    }
}

/// How many operations a window has: 1 to `WINDOW_LIMIT`.
#[derive(Clone, Copy, Debug, PartialEq, Eq)]
pub struct WindowSize {
    operations: u32,
}

impl Model for WindowSize {
    ghost use Rattle.std.specs.Prelude.{ℕ, ◌≤◌};
    ghost use Rattle.member_rules.specs.Head.{window_limit};

    ghost Value = { ℕ };

    ghost view = { λ s. s.operations };

    ghost invariant = { λ s. (1 ≤ s.operations) × (s.operations ≤ window_limit) };

    ghost inverse = { λ v. record { operations = v } };
}

impl WindowSize {
    ghost use Rattle.std.specs.Prelude.{◌≡◌, IfSome, IfNone};
    ghost use Rattle.member_rules.specs.Setting.{IsWindowSize};

    /// This many operations, or `None` if a window may not have so many.
    pub fn new(operations: u32) -> Option<WindowSize>
        ensures found { IfSome result (λ size. size ≡ operations) }
        ensures none { IfNone result (¬ IsWindowSize operations) }
        ensures rules { IfSome result IsWindowSize }
    {
        if operations < 1 || operations > WINDOW_LIMIT {
            return None;
        }
        Some(WindowSize { operations })
    }

    /// The number of operations.
    pub fn get(self) -> u32
        ensures size { result ≡ self }
        ensures rules { IsWindowSize result }
    {
        self.operations
    }
}

impl Copies for WindowSize {
    ghost use Rattle.member_rules.specs.Setting.{IsWindowSize};

    ghost rules = { IsWindowSize };

    fn copy(&self, _alloc: Global) -> Result<WindowSize, NoMemory> {
        Ok(WindowSize {
            operations: self.operations,
        })
    }
}

/// A setting of the feed that an operation changes. It holds from that operation on.
#[derive(Debug, Drop)]
pub enum Setting {
    /// The feed's title. Archives that are full by then keep the title that they have.
    Title(ShortText),
    /// The size of each later window. The open window keeps its size.
    Window(WindowSize),
}

impl Copies for Setting {
    ghost use Rattle.member_rules.specs.Setting.{IsSetting};

    ghost rules = { IsSetting };

    fn copy(&self, alloc: Global) -> Result<Setting, NoMemory> {
        match self {
            Setting::Title(title) => Ok(Setting::Title(title.copy(alloc)?)),
            Setting::Window(size) => Ok(Setting::Window(size.copy(alloc)?)),
        }
    }
}
