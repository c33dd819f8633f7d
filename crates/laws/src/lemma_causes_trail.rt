//! What searches leave in a journal: which entries belong to one, what each tells of its state, and how far a command's searches are.
