//! Laws of objects whose references are those of the segments of a library: where a book of objects and all
//! segments are kept side by side, they stay so with each change. Nothing in it runs.
#![tactic(auto)]

ghost use Rattle.reference_laws.specs.Laws.{CountsAreSame, DueAreSame, FlowsAreSame, NamesAreSame, ObjectsChange, ObjectsCome, ObjectsGo, ReferencesCome, ReferencesGo};

/// Of the objects that are kept, references name those that segments name.
pub fn names_are_same()
    ensures { NamesAreSame }
{}

/// The same objects are due.
pub fn due_are_same()
    ensures { DueAreSame }
{}

/// A segment that comes is one reference more.
pub fn references_come()
    ensures { ReferencesCome }
{}

/// A segment that goes is one reference less, and an object that loses its last is idle since then.
pub fn references_go()
    ensures { ReferencesGo }
{}

/// An object that comes has no reference.
pub fn objects_come()
    ensures { ObjectsCome }
{}

/// An object that is changed, as where its bytes are stored, keeps its references.
pub fn objects_change()
    ensures { ObjectsChange }
{}

/// An object that goes leaves the references to others.
pub fn objects_go()
    ensures { ObjectsGo }
{}

/// The flows that refer to a kept object are those whose segments name it.
pub fn flows_are_same()
    ensures { FlowsAreSame }
{}

/// There are as many references to it as segments that name it.
pub fn counts_are_same()
    ensures { CountsAreSame }
{}
