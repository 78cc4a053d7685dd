//! What holds of every page.
ghost use Rattle.wy_report.specs.Laws.{AnchorsAreTheAnswer, LinksLeadToAnchors, OneReport, ShownIsText, TagsAreTheTemplates};

/// An event of a trace has one page.
pub fn a_report_is_one()
    ensures { OneReport }
{}

/// What the source or an event holds is text: no byte of it is read as a part of a tag.
pub fn what_is_shown_is_text()
    ensures { ShownIsText }
{}

/// The tags of a page are those of its template, whatever the source and the events hold.
pub fn tags_are_the_templates()
    ensures { TagsAreTheTemplates }
{}

/// The places of a page are the lines of the source and the events of the answer, each once.
pub fn anchors_are_the_answer()
    ensures { AnchorsAreTheAnswer }
{}

/// Each link of a page leads to one of its places.
pub fn links_lead_to_anchors()
    ensures { LinksLeadToAnchors }
{}
