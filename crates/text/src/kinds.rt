// The kinds of text: what parts their words.
ghost use Rattle.std.specs.Prelude.{◌≡◌, Bool, true, false, List, ℕ, [], ◌∷◌, refl};
ghost use Rattle.text.specs.Rules.{Rules, file_rules, script_rules};

// A kind of text names its separators, two bytes that may be one, and whether a run of them counts as one.
pub trait Text {
    const SEPARATORS: [u8; 2];

    const RUN_IS_ONE: bool;

    ghost SEPARATORS: { List ℕ };

    ghost RUN_IS_ONE: { Bool };

    // what the two constants say
    ghost rules: { Rules };

    ghost separates: { SEPARATORS ≡ rules.first ∷ rules.second ∷ [] };

    ghost joins: { RUN_IS_ONE ≡ rules.joins };
}

// A file: blanks and tabs part words, and a run of them counts as one.
#[derive(Clone, Copy)]
pub struct File;

impl Text for File {
    const SEPARATORS: [u8; 2] = [b' ', b'\t'];

    const RUN_IS_ONE: bool = true;

    ghost SEPARATORS = { 32 ∷ 9 ∷ [] };

    ghost RUN_IS_ONE = { true };

    ghost rules = { file_rules };

    ghost separates = { refl };

    ghost joins = { refl };
}

// A script: commas part words, and each counts.
#[derive(Clone, Copy)]
pub struct Script;

impl Text for Script {
    const SEPARATORS: [u8; 2] = [b',', b','];

    const RUN_IS_ONE: bool = false;

    ghost SEPARATORS = { 44 ∷ 44 ∷ [] };

    ghost RUN_IS_ONE = { false };

    ghost rules = { script_rules };

    ghost separates = { refl };

    ghost joins = { refl };
}
