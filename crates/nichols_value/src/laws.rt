//! Laws of blocks, for every braid. A word is of the block of its length and its product; all is read in the skew derivations.

ghost use Rattle.nichols_value.specs.Laws.{BlocksOverOthersAreVoid, BlocksSplitTheBasis, BlocksWithinTheLimitAreWhole, CandidatesAreOfLowerBlocks, DerivativesAreOfLowerBlocks, FormsStayInTheirBlock, LeftLowerBlocksAreByFirstLetters, LeftLowerBlocksAreLowerBlocks, LowerBlocksAreByLastLetters, LowerBlocksAreOfLeadingLetters, LowerLettersAreLeading, RelationsOfABlock, RowsAreOfLowerBlocks, WholeBlocksHaveRules, WideBlocksAreOver};

/// A least word is in the block of its product, and in no other.
pub fn blocks_split_the_basis()
    ensures { BlocksSplitTheBasis }
{}

/// The lower block by a letter b has the least words u for which `u b` is of the block.
pub fn lower_blocks_are_by_last_letters()
    ensures { LowerBlocksAreByLastLetters }
{}

/// The left lower block by a letter a has the least words v for which `a v` is of the block.
pub fn left_lower_blocks_are_by_first_letters()
    ensures { LeftLowerBlocksAreByFirstLetters }
{}

/// The left lower blocks are among the lower blocks: that by the letter that c is sent to is the lower block by c.
#[tactic(auto, using(crate::proofs::ValueLaws::left_lower_blocks_are_lower_blocks))]
pub fn left_lower_blocks_are_lower_blocks()
    ensures { LeftLowerBlocksAreLowerBlocks }
{}

/// The lower block by a letter is that by the first letter with the same map.
#[tactic(auto, using(crate::proofs::ValueLaws::lower_blocks_are_of_leading_letters))]
pub fn lower_blocks_are_of_leading_letters()
    ensures { LowerBlocksAreOfLeadingLetters }
{}

/// The lower letters of a block are the leading letters before which its product is one of the degree below.
pub fn lower_letters_are_leading()
    ensures { LowerLettersAreLeading }
{}

/// The candidates of a block are the words of its lower blocks by a letter, with that letter behind.
pub fn candidates_are_of_lower_blocks()
    ensures { CandidatesAreOfLowerBlocks }
{}

/// So many there are.
#[tactic(auto, using(crate::proofs::ValueLaws::rows_are_of_lower_blocks))]
pub fn rows_are_of_lower_blocks()
    ensures { RowsAreOfLowerBlocks }
{}

/// The normal form of a word has least words of the word's block alone.
#[tactic(auto, using(crate::proofs::ValueLaws::forms_stay_in_their_block))]
pub fn forms_stay_in_their_block()
    ensures { FormsStayInTheirBlock }
{}

/// The normal form of the derivative by a of a word has least words of the lower block by a alone.
#[tactic(auto, using(crate::proofs::ValueLaws::derivatives_are_of_lower_blocks))]
pub fn derivatives_are_of_lower_blocks()
    ensures { DerivativesAreOfLowerBlocks }
{}

/// The relations of a block are those of its candidates that aren't least, each with its normal form.
pub fn relations_of_a_block()
    ensures { RelationsOfABlock }
{}

/// Where no block of a degree or of a lower one has more candidates than the limit, the blocks of the degree are whole.
#[tactic(auto, using(crate::proofs::ValueLaws::blocks_within_the_limit_are_whole))]
pub fn blocks_within_the_limit_are_whole()
    ensures { BlocksWithinTheLimitAreWhole }
{}

/// The value of a block is its rule exactly where the block is whole.
#[tactic(auto, using(crate::proofs::ValueLaws::whole_blocks_have_rules))]
pub fn whole_blocks_have_rules()
    ensures { WholeBlocksHaveRules }
{}

/// It is the number of the candidates exactly where these exceed the limit and all lower blocks are whole.
pub fn wide_blocks_are_over()
    ensures { WideBlocksAreOver }
{}

/// It is void exactly where some lower block isn't whole.
#[tactic(auto, using(crate::proofs::ValueLaws::blocks_over_others_are_void))]
pub fn blocks_over_others_are_void()
    ensures { BlocksOverOthersAreVoid }
{}
