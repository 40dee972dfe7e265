// What holds of codes, for the crates above. The bodies are empty: their contracts are the laws.
ghost use Rattle.fcns_encoding.specs.Laws.{OneRuleMeansItsTerm, OneRuleStandsForItsDocument, EncodedStandsForItsDocument, CodesAreKept, NamesStayDistinct, NamesAreLawful, ListNamesAreLawful, CodeGoesBefore};

/// The one rule of a term without parameters is a swept grammar, and its value is the term.
pub fn one_rule_means_its_term()
    ensures { OneRuleMeansItsTerm }
{}

/// The one rule of a document's code stands for the document, with lawful names and the document's texts.
pub fn one_rule_stands_for_its_document()
    ensures { OneRuleStandsForItsDocument }
{}

/// What `encode` answers for a document, over distinct and lawful names, stands as the body of the one rule for it.
pub fn encoded_stands_for_its_document()
    ensures { EncodedStandsForItsDocument }
{}

/// Names that grow keep their places, and a code by the earlier names is a code by the later ones.
pub fn codes_are_kept()
    ensures { CodesAreKept }
{}

/// Distinct names that grow are distinct.
pub fn names_stay_distinct()
    ensures { NamesStayDistinct }
{}

/// Lawful names that grow by a document's pairs are lawful.
pub fn names_are_lawful()
    ensures { NamesAreLawful }
{}

/// Lawful names that grow by the pairs of a list of lawful trees are lawful.
pub fn list_names_are_lawful()
    ensures { ListNamesAreLawful }
{}

/// A code that ends in a parameter, as `encode_list` answers it, with the code of other nodes in the place of the parameter codes
/// its nodes and then the others.
pub fn code_goes_before()
    ensures { CodeGoesBefore }
{}
