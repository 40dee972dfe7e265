// Which words give which settings.
use std::alloc::{AllocError, Global};
use std::test::Fail;
use store_words::{Settings, WordsError, read_settings};

// Words, and the rank and the repair that they give, or None where they are bad.
static ROWS: [(&[&str], Option<(usize, u64)>); 31] = [
    (&[], Some((4, 1))),
    (&["--"], Some((4, 1))),
    (&["--rank", "3"], Some((3, 1))),
    (&["--repair=0"], Some((4, 0))),
    (&["--rank", "3", "--repair=0"], Some((3, 0))),
    (&["--repair", "2", "--rank=1", "--"], Some((1, 2))),
    (
        &["--repair", "1000000", "--rank=0000008", "--"],
        Some((8, 1_000_000)),
    ),
    (&["--rank", "9"], None),
    (&["--rank", "0"], None),
    (&["--rank", "3", "--rank", "3"], None),
    (&["--repair=1", "--repair=1"], None),
    (&["--rank"], None),
    (&["--rank", "--"], None),
    (&["--rank", "--repair", "1"], None),
    (&["--help"], None),
    (&["-h"], None),
    (&["--version"], None),
    (&["--ran", "3"], None),
    (&["-r", "3"], None),
    (&["--rank="], None),
    (&["--rank=3=3"], None),
    (&["--rank", "+3"], None),
    (&["--rank", "-3"], None),
    (&["--rank", "-"], None),
    (&["--rank", "00000003"], None),
    (&["--rank", " 3"], None),
    (&["--repair", "1000001"], None),
    (&["--", "--rank", "3"], None),
    (&["--", "--"], None),
    (&["x"], None),
    (&[""], None),
];

fn given(alloc: Global, texts: &[&str]) -> Result<Result<Settings, WordsError>, AllocError> {
    let words = words_of(alloc, texts)?;
    Ok(read_settings(alloc, &words))
}

// Words of their own.
pub(crate) fn words_of(alloc: Global, texts: &[&str]) -> Result<Vec<String>, AllocError> {
    let mut words = Vec::new(alloc);
    for text in texts {
        words.push(String::from_str(alloc, text)?)?;
    }
    Ok(words)
}

#[test]
fn words_give_settings(rt: HostRuntime) -> Result<(), Fail> {
    for &(texts, expected) in &ROWS {
        let settings = match expected {
            Some((rank, repair)) => Ok(Settings { rank, repair }),
            None => Err(WordsError::Bad),
        };
        assert_eq!(rt; given(rt.alloc(), texts)?, settings, "{texts:?}");
    }
    Ok(())
}
