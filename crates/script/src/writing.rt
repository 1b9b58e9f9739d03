// Writing a command out as words.
ghost use Rattle.std.specs.Prelude.{◌≡◌, IfOk, string_bytes};
ghost use Rattle.script.specs.Language.{line_text, words_of};

use crate::commands::Command;
use std::alloc::{AllocError, Global};

impl Command {
    // The command's words one space apart, as `to_string` gives them. It stays as a public promise.
    pub fn text(self, heap: Global) -> Result<String, AllocError>
        ensures { IfOk result (λ t. string_bytes t ≡ line_text (words_of self)) }
    {
        self.to_string(heap)
    }
}
