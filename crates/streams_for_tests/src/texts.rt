//! The texts that faults have for a user.
use std::alloc::Global;

/// Returns whether each fault has its text.
pub fn have_texts<F: ToString>(alloc: Global, texts: &[(F, &str)]) -> bool {
    for (fault, text) in texts {
        if !has_text(alloc, fault, text) {
            return false;
        }
    }
    true
}

fn has_text<F: ToString>(alloc: Global, fault: &F, text: &str) -> bool {
    match fault.to_string(alloc) {
        Ok(said) => {
            let is_text = said.as_str() == text;
            drop(said);
            is_text
        }
        Err(_) => false,
    }
}
