// Documents that are folded while their calls come.
ghost use Rattle.std.specs.Prelude.{◌≡◌, true, IfOk, OnOk};

use fcns_encoding::{Folded, Folder, Sharing};
use plain_tree::Kind;
use std::alloc::{AllocError, Global};
use std::test::Fail;
use xml_nodes::Builder;

// An element with two empty kids.
fn add_row(folder: &mut Folder) -> Result<(), AllocError>
    requires { folder.old.sound ≡ true }
    ensures sound { OnOk result (folder.new.sound ≡ true) }
    ensures depth { OnOk result (folder.new.depth ≡ folder.old.depth) }
{
    folder.open(Kind::Element, b"e")?;
    folder.open(Kind::Element, b"f")?;
    folder.close()?;
    folder.open(Kind::Element, b"g")?;
    folder.close()?;
    folder.close()
}

// So many rows under an element.
fn rows(alloc: Global, count: u32) -> Result<Folder, AllocError>
    ensures sound { IfOk result (λ f. f.sound ≡ true) }
    ensures depth { IfOk result (λ f. f.depth ≡ 0) }
{
    let mut folder = Folder::new(alloc);
    folder.open(Kind::Element, b"r")?;
    for _ in 0..count {
        add_row(&mut folder)?;
    }
    folder.close()?;
    Ok(folder)
}

// Rows, from how many uses on a subterm has a rule, and how many rules and nodes there are then.
struct Fold {
    rows: u32,
    // None where two uses are enough.
    sharing: Option<Sharing>,
    rules: usize,
    size: u64,
}

const SELDOM: Sharing = Sharing {
    uses: 200,
    large_uses: 200,
    large: 0,
};

const OFTEN: Sharing = Sharing {
    uses: 1_000,
    large_uses: 1_000,
    large: 0,
};

// What the rows share is used a hundred times, and its rule has five labels.
const LARGE: Sharing = Sharing {
    uses: 101,
    large_uses: 100,
    large: 5,
};

const LARGER: Sharing = Sharing { large: 6, ..LARGE };

static FOLDS: [Fold; 6] = [
    // Each different subterm is kept once.
    Fold {
        rows: 100,
        sharing: None,
        rules: 2,
        size: 210,
    },
    // Of 605 labels each row has two leaves, which are calls of two rules.
    Fold {
        rows: 100,
        sharing: Some(SELDOM),
        rules: 3,
        size: 409,
    },
    Fold {
        rows: 100,
        sharing: Some(LARGE),
        rules: 2,
        size: 210,
    },
    Fold {
        rows: 100,
        sharing: Some(LARGER),
        rules: 3,
        size: 409,
    },
    // What the rows share has a rule, and a row with its call has one where there are enough rows.
    Fold {
        rows: 1_023,
        sharing: Some(OFTEN),
        rules: 2,
        size: 2_056,
    },
    Fold {
        rows: 1_024,
        sharing: Some(OFTEN),
        rules: 3,
        size: 1_036,
    },
];

fn folded(alloc: Global, fold: &Fold) -> Result<Folded, AllocError> {
    let folder = rows(alloc, fold.rows)?;
    match fold.sharing {
        None => folder.finish(),
        Some(sharing) => folder.finish_with(sharing),
    }
}

#[test]
fn frequent_subterms_have_rules(rt: HostRuntime) -> Result<(), Fail> {
    for (row, fold) in FOLDS.iter().enumerate() {
        let folded = folded(rt.alloc(), fold)?;
        let is_right = folded.names.len() == 5
            && folded.grammar.rules() == fold.rules
            && folded.grammar.size() == fold.size;
        assert!(rt; is_right, "row {row}");
    }
    Ok(())
}
