//! How the program is called.

ghost use Rattle.std.specs.Prelude.{◌≡◌};
ghost use Rattle.verb_table.specs.Table.{verb_table};
ghost use Rattle.verb_table.specs.Usage.{usage_text};

/// How the program is called: a line for each verb, with its positional word and its options.
pub fn usage_text() -> &'static [u8]
    ensures { result.now ≡ usage_text verb_table }
{
    b"usage: sil check NAME [--need 1|2|3|4] [--mode low|high|both] [--series] [--peak] [--occupancy]
       sil size NAME
       sil gen NUMBER
       sil bench NUMBER [--need 1|2|3|4] [--mode low|high|both] [--series] [--peak] [--occupancy]
"
}
