//! Lemmas on lists: the terms of the LRU's contracts are those of the definitions, on lists that both tell alike.
