//! Where the parts of a program stand in its text. The function does nothing: its contract is the law.

ghost use Rattle.law_sites.specs.Laws.{SitesAreTokens};

/// In the program of a well-formed tree each class, method and field that the text declares has the number of one of the tree's tokens
/// as its site, and so has each form that has a site, each statement and each local in its bodies, and each end of a body. The sites in
/// the body of a method of the library are that of the method.
pub fn sites_are_tokens()
    ensures { SitesAreTokens }
{}
