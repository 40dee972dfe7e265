// What holds between bytes, tokens, trees and a builder's calls, each on a public call that does nothing.
ghost use Rattle.xml_nodes.specs.Laws.{SpellsOne, SpellsOneList, SpellsOneValue, SpellsDocument, SpellsFragment, SavedIsSpelled, DocumentLeads, LeadsToDocument, FragmentLeads, LeadsToFragment};
ghost use Rattle.xml_nodes.specs.Pen.{CallsWriteTree, CallsSaveDocument};

/// Bytes spell at most one document.
pub fn spells_one()
    ensures { SpellsOne }
{}

/// Bytes spell at most one fragment.
pub fn spells_one_list()
    ensures { SpellsOneList }
{}

/// Bytes spell at most one value.
pub fn spells_one_value()
    ensures { SpellsOneValue }
{}

/// What bytes spell is a lawful document of at most as many nodes as there are bytes, and no two of its texts are neighbours.
pub fn spells_document()
    ensures { SpellsDocument }
{}

/// What bytes spell is a lawful fragment of at most as many nodes as there are bytes, and no two of its texts are neighbours.
pub fn spells_fragment()
    ensures { SpellsFragment }
{}

/// The saved bytes of a lawful document spell it, with neighbouring texts joined.
pub fn saved_is_spelled()
    ensures { SavedIsSpelled }
{}

/// The calls of a tree write its spelling.
pub fn calls_write_tree()
    ensures { CallsWriteTree }
{}

/// The calls of a document write its saved bytes.
pub fn calls_save_document()
    ensures { CallsSaveDocument }
{}

/// The tokens of a document lead the machine from the start to the end, through the calls of its tree.
pub fn document_leads()
    ensures { DocumentLeads }
{}

/// Tokens that lead the machine from the start to its last stage are a document, and its calls are that document's.
pub fn leads_to_document()
    ensures { LeadsToDocument }
{}

/// The tokens of a fragment lead the machine through the calls of its nodes.
pub fn fragment_leads()
    ensures { FragmentLeads }
{}

/// Tokens that lead the machine there are a content with those calls.
pub fn leads_to_fragment()
    ensures { LeadsToFragment }
{}
