// Specs only: a text and its file, there and back. Composing what `show` prints gives the file; showing what `compose` made gives the text without comments and spare blanks.
#![tactic(auto)]
