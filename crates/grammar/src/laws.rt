ghost use Rattle.grammar.specs.Forms.{UsedOnce, Injective, WrittenOnce};
ghost use Rattle.grammar.specs.Grammar.{Spelling};

// The uses of a script's tokens are determined by the tokens.
pub fn uses_are_determined()
    ensures { UsedOnce }
{}

// A script is determined by its tokens, under any spelling that tells numbers and literals apart.
pub fn a_script_is_written_once<N, K, L>()
    ensures { (s : Spelling N K L) → Injective s → WrittenOnce s }
{}
