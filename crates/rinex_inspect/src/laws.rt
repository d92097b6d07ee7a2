//! Laws of what is printed of a file.
ghost use Rattle.rinex_inspect.specs.CheckLaws.{CountsWhatIsThere, PrintsNoneUnasked};

/// The gaps that `run_check_with` prints, and the numbers of epochs. Of every file, with and
/// without a window, the number of different indexes is at most that of a complete file, and it is
/// that exactly if no gap is printed. No gap is printed if it isn't asked whether the file is
/// complete.
pub fn complete()
    ensures counts { CountsWhatIsThere }
    ensures unasked { PrintsNoneUnasked }
{}
