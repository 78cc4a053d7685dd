//! The program of a text keeps the library, as states that are typed ask for. The function does nothing: its contract is the law.

ghost use Rattle.law_own_traces.specs.KeptLibrary.{ProgramsKeepLibrary};

/// In the program of a text each method and each field of a class of the library is the library's. With at most 16,777,200 classes, of
/// which `law_program_parts::trees_declare_few` says that a text has far fewer, it keeps the library.
pub fn programs_keep_the_library()
    ensures { ProgramsKeepLibrary }
{}
