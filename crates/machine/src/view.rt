//! A record that was checked.
ghost use Rattle.std.specs.Prelude.{◌≡◌, IsTrue, length};
ghost use Rattle.machine.specs.Words.{record_words, valid};

/// A record that a host lends, once it is checked: it stays valid from write to write.
#[derive(Drop)]
pub struct Machine<'a> {
    pub words: &'a mut [u32],
    pub ghost whole: { length words.now ≡ record_words },
    pub ghost sound: { IsTrue (valid words.now) },
}

impl<'a> Machine<'a> {
    /// The record, which the check did not refuse.
    pub fn lent(words: &'a mut [u32]) -> Machine<'a>
        requires { IsTrue (valid words.old) }
        ensures same_reference { result.words.ghost_name ≡ words.entry.ghost_name }
        ensures words { result.words.now ≡ words.old }
    {
        Machine { words }
    }
}
