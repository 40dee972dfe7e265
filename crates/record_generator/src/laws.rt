// The law of the document that is made. Its body is empty: the contract is the law.
ghost use Rattle.record_generator.specs.Laws.{GeneratesDocuments};

/// What is made from a number up to 200,000 is a document, with at most seven nodes for each record and two more.
pub fn generates_documents()
    ensures { GeneratesDocuments }
{}
