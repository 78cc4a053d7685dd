//! The bodies of the library's methods fit the types of every program that begins with the library.
//! The function does nothing: its contract is the law.

ghost use Rattle.law_typed.specs.Library.{LibraryFits};

/// Each body of the library begins with the locals that its method takes, gives back what the method gives, and its forms
/// fit these types, in every program that begins with the library (`HasLibrary`).
pub fn the_library_fits_its_types()
    ensures { LibraryFits }
{}
