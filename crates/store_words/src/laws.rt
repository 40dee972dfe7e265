// The law of words. Its body is empty: the contract is the law.
ghost use Rattle.store_words.specs.Words.{HaveOneMeaning};

/// Words give at most one pair of settings.
pub fn words_have_one_meaning()
    ensures { HaveOneMeaning }
{}
