// What the rules say of a conforming module: its blocks, the types of what they make, where its calls stand; how high its text is; and that the text is made of declared words, so in the grammar. Each folder of laws is one of these. Definitions and laws alone.
#![tactic(auto)]
